// The calls on a tender in a buffer of words, which change it where it stands.
#![tactic(auto)]

pub mod internal;
