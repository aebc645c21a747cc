// Bids that no receptions lead to: they are allotted for a tender in its parts, as for a closed one and for a preview.
use crate::messages::announcement;
use crate::{lines, steps};
use outcomes::internal::allot_bids;
use std::io;

// Allots two bids of a code with a limit under document 01's terms, and prints their awards.
fn allot(rt: &impl Print, name: &[u8], limit: u64, first: u64, second: u64) -> io::Result<()> {
    let terms = steps::opened(announcement()).terms();
    let limits = [limit];
    let rates = [150000u32, 140000, 0, 0, 0, 0, 0, 0, 0, 0];
    let amounts = [first, second, 0, 0, 0, 0, 0, 0, 0, 0];
    let mut awards = [0u64; 10];
    let answer = allot_bids(Ok(()), terms, &limits, &rates, &amounts, &mut awards);
    printing::text(rt, name)?;
    lines::answered(rt, answer.err())?;
    printing::number(rt, awards[0])?;
    printing::number(rt, awards[1])?;
    lines::marginal(rt, answer.unwrap_or(None))?;
    printing::end(rt)
}

// 16: the most that a book may hold, and one cent more, whatever a limit leaves of it.
pub fn bids(rt: &impl Print) -> io::Result<()> {
    allot(rt, b"most cents", 0, 999999999999999998, 1)?;
    allot(rt, b"one cent more", 0, 999999999999999998, 2)?;
    allot(rt, b"most cents, capped", 40000, 999999999999999998, 1)?;
    allot(rt, b"one cent more, capped", 40000, 999999999999999998, 2)
}
