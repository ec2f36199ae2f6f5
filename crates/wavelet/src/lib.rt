// The wavelet transform of a map that starts anywhere on the grid: definitions and theory, the limits, the sides of the levels, and the view of one band row of
// a plane.
#![tactic(auto)]

pub mod limits;
pub mod shape;
pub mod sizes;
pub mod store;
pub mod view;
