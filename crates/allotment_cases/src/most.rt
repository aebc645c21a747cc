// Condition 16: the most that the bids in the book may add up to.
use crate::book::Bids;
use crate::line::case;
use announcement::Side;
use std::io;

const MOST: u64 = 999_999_999_999_999_999;

const LARGEST: u64 = 18_446_744_073_709_551_615;

// Twice this is zero in 64 bits.
const HALF: u64 = 9_223_372_036_854_775_808;

// Two bids, the second of them out of a limit rate of 100000 in LP.
fn two(first: u64, second: u64) -> Bids {
    Bids::none().bid(0, 120000, first).bid(10, 90000, second)
}

// More than that: two sums that wrap in 64 bits, and one cent too many with a bid that is out; then exactly that, in full and shared.
pub fn sums(rt: &impl Print) -> io::Result<()> {
    let b = Bids::none()
        .bid(0, 120000, 600_000_000_000_000_001)
        .bid(10, 120000, 399_999_999_999_999_998);
    case(
        rt,
        b"two largest",
        Side::Lp,
        100000,
        100000,
        two(LARGEST, LARGEST),
    )?;
    case(rt, b"two halves", Side::Lp, 100000, 100000, two(HALF, HALF))?;
    case(rt, b"one cent more", Side::Lp, 100000, 100000, two(1, MOST))?;
    case(rt, b"most", Side::Lp, 0, LARGEST, two(1, MOST - 1))?;
    case(rt, b"most shared", Side::La, 200000, MOST - 1, b)
}
