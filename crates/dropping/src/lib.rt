// Awards below the minimum allocation, dropped.
#![tactic(auto)]

pub mod internal;
