// Lists of calls on any machine, and what is seen of them: the words of demand 3 that writer and reader share, with their laws. There is no code here.

#![tactic(auto)]
