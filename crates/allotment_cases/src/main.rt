// Cases of an allotment that run instead of being proved. What is printed is held to the file stdout,
// which was calculated from documents 01 and 02 by other means than this library.
#![tactic(auto)]

mod book;
mod limits;
mod line;
mod many;
mod marked;
mod most;
mod rates;
mod sharing;

use std::io;

fn main(rt: HostRuntime) -> io::Result<()> {
    marked::marked(&rt)?;
    marked::example(&rt)?;
    many::full_books(&rt)?;
    sharing::met(&rt)?;
    sharing::cents(&rt)?;
    sharing::whole_shares(&rt)?;
    rates::limit(&rt)?;
    rates::fine_and_zero(&rt)?;
    rates::ends(&rt)?;
    most::sums(&rt)?;
    limits::one_code(&rt)?;
    limits::met(&rt)?;
    limits::two_codes(&rt)?;
    limits::dropped(&rt)?;
    limits::every_code(&rt)
}
