// Distant ground: what a reader with a stop does over every list of calls (document 02, Q-6). Theorems over the promises of `reader`, no code.

#![tactic(auto)]
