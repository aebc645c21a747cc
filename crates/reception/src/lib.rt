// A message received: the errors with which it is returned, and its reply.
#![tactic(auto)]

pub mod internal;
