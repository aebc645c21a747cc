// The two replies to a message: that it is confirmed, or that it is returned with its errors.
#![tactic(auto)]

pub mod internal;
