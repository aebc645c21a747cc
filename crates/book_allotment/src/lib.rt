// The bids of a book by value, allotted.
#![tactic(auto)]

pub mod internal;
