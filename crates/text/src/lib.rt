// Text in lent areas: bytes copied as far as there is room, numbers in decimal, and the line of a refusal.
#![tactic(auto)]

pub mod bytes;
pub mod decimal;
pub mod refusal;
