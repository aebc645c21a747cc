// Cases of the envelope that run instead of being proved. What is printed is held to the file
// stdout, which was written from document 01.
#![tactic(auto)]

mod branches;
mod message;
mod numbers;
mod reading;
mod times;
mod writing;

use std::io;

fn main(rt: HostRuntime) -> io::Result<()> {
    reading::valid(&rt)?;
    reading::nines(&rt)?;
    reading::heads(&rt)?;
    reading::contents(&rt)?;
    reading::lengths(&rt)?;
    numbers::fields(&rt)?;
    numbers::places(&rt)?;
    writing::numbers(&rt)?;
    writing::texts(&rt)?;
    writing::identifiers(&rt)?;
    writing::kinds(&rt)?;
    writing::spaces(&rt)?;
    branches::spaces(&rt)?;
    branches::bytes(&rt)?;
    times::dates(&rt)?;
    times::hours(&rt)?;
    times::order(&rt)
}
