// Cases of the calls on a tender that run instead of being proved. Most of them stand in the file
// stdin. What is printed is held to the file stdout, which was calculated from documents 01 and
// 02 and not by this program.
#![tactic(auto)]

mod branches;
mod exceeding;
mod lines;
mod lists;
mod messages;
mod orders;
mod parts;
mod script;
mod spaces;
mod steps;

use std::io;
use std::io::Read;

fn main(rt: HostRuntime) -> io::Result<()> {
    let mut input = [0u8; 65536];
    let n = io::copy(&mut rt.reader().take(65536), &mut &mut input[..])?;
    script::run(&rt, parts::part(&input, 0, n as usize))?;
    lists::codes(&rt)?;
    lists::limits(&rt)?;
    orders::all(&rt)?;
    exceeding::bids(&rt)?;
    branches::all(&rt)
}
