// The lines of receptions and refusals.
#![tactic(auto)]

pub mod internal;
