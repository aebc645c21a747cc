// A 6G1 as bytes, and what other messages share with it. It knows nothing of tenders.
#![tactic(auto)]

pub mod application;
pub mod internal;
