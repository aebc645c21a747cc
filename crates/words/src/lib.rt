// Eight digits at a time: the bytes of a word, tested at once and added by pairs, fours and eights to read,
// and parted the same way to write.
#![tactic(auto)]

pub mod internal;
