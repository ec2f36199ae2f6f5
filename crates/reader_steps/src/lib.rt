// The order in which a reader goes through the levels, by the filter's look-ahead: which set waits for which, the band rows that a set asks for, the place of
// the row wanted and the place after it, with the laws that no set is left out and that the rows wanted are the steps of `wavelet`. As code: the sets of one
// level (`sets`), and where a number of a level begins (`places`). `reader`, which has a store, and `reader_order`, which has none, go from row to row by it.
#![tactic(auto)]

pub mod places;
pub mod sets;
