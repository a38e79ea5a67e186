// What a script's player computes: sums of bytes, the journal's fill, and numbers as text.
#![tactic(auto)]

pub mod fill;
pub mod sum;
pub mod text;
