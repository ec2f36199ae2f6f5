// In the documents' own words: T.800's transform, the writer's order, the reader's steps and when 14 comes, in grid coordinates (specs/Line to Fourteen);
// and document 01 as it stands for maps at origin (0, 0) (specs/Zero..). Theorems say that the definitions which the calls cite are the same. There is no
// code here, and no crate rests on it.

#![tactic(auto)]
