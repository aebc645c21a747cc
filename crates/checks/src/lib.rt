// The checks of an application: which errors of document 01 it has.
#![tactic(auto)]

pub mod internal;
