// A whole 6G1 as one list of numbers.
#![tactic(auto)]

pub mod internal;
