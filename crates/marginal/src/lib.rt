// The marginal rate: the first rate, best first, at which the running total of the bids in reaches the amount offered.
#![tactic(auto)]

pub mod internal;
