// The samples of document 01 that are marked P, samples at odd coordinates and of the 9/7, a column of seven rows through writer and reader, and 14 in a named
// call: tables, and theorems that every entry holds by the definitions. There is no code here.

#![tactic(auto)]
