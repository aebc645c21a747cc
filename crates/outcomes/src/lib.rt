// What a reception and an allotment come to.
#![tactic(auto)]

pub mod internal;
