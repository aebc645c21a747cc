// The allotment of bids: awards and marginal rate.
#![tactic(auto)]

pub mod internal;

// Condition 16 refuses: the bids in the book add up to more than it allows.
#[derive(Clone, Copy)]
pub struct BidsExceed;
