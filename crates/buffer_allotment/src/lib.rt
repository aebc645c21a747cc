// The bids of a tender in a buffer of words, allotted, and its preview. No word changes.
#![tactic(auto)]

pub mod internal;
