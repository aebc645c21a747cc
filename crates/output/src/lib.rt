// Writing into a space that a caller lends. The functions ask for room and so stand in the module
// internal; a call that a maker makes tests the room first and refuses where it is short.
#![tactic(auto)]

pub mod internal;
