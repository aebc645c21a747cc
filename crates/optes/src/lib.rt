// The 6G1 for a host in C: numbers and byte slices, and nothing else. Whether there is something to
// ask for is asked by a call of its own, so that no answer stands for two things.
#![tactic(auto)]

mod reading;
mod whole;
mod writing;

pub use reading::{
    optes_6g1_amount, optes_6g1_has_field, optes_6g1_has_number, optes_6g1_has_place,
    optes_6g1_length, optes_6g1_number, optes_6g1_rate, optes_6g1_read, optes_6g1_start,
};
pub use whole::optes_6g1_numbers;
pub use writing::{optes_6g1_write, optes_6g1_write_addresses};
