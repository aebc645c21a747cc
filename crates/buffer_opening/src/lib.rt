// A tender opened in the words of a buffer.
#![tactic(auto)]

pub mod internal;
