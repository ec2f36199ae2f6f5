// How far off the heights are that come back from a rounded plane: theorems over `rounding` and `tolerance`. There is no code here. Document 02, Q-10.

#![tactic(auto)]
