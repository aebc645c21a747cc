// The awards of bids whose last rate served is known: better rates in full, worse ones nothing, shares at that rate.
#![tactic(auto)]

pub mod internal;
