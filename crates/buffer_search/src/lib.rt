// One code in the buffer of a tender: where it stands, and whether it takes a message.
#![tactic(auto)]

pub mod internal;
