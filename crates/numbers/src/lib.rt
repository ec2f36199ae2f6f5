// Numbers, words and signals: definitions that the contracts of every layer cite, and their laws. There is no code here.

#![tactic(auto)]
