// The lines of the awards of a book.
#![tactic(auto)]

pub mod internal;
