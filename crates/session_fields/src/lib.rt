// The clock and the codes of the fields of a session.
#![tactic(auto)]

pub mod internal;
