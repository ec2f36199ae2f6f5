// Writer and reader joined: a theorem over the two promises, no code.

#![tactic(auto)]
