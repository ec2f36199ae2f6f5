// Sixteen readers at one disk, by turns (document 02, Q-11): the theorem over turn-giver and readers together. There is no code here.

#![tactic(auto)]
