// Demand 1: what each call leaves of all that it was lent, where a question turns it away and where it passes. Statements and theorems over the definitions
// that the contracts cite; there is no code here.

#![tactic(auto)]
