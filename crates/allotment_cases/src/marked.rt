// M7 to M9 of document 01, and the example of source document 002 under document 01's rules.
use crate::book::Bids;
use crate::line::case;
use announcement::Side;
use std::io;

// M7 to M9.
pub fn marked(rt: &impl Print) -> io::Result<()> {
    let two = Bids::none().bid(0, 120000, 10000).bid(10, 120000, 10000);
    let three = two.bid(20, 120000, 10000);
    let unequal = Bids::none()
        .bid(0, 120000, 50000)
        .bid(10, 150000, 60000)
        .bid(20, 120000, 40000);
    case(rt, b"M7", Side::Lp, 100000, 100000, unequal)?;
    case(rt, b"M8", Side::Lp, 100000, 15000, two)?;
    case(rt, b"M9", Side::Lp, 100000, 10000, three)
}

// One billion euro collected and invested: shares in cents, without a limit of credit and with the example's of 250 million euro.
pub fn example(rt: &impl Print) -> io::Result<()> {
    let b = Bids::none()
        .bid(0, 171100, 1_000_000_000)
        .bid(1, 130900, 50_000_000_000)
        .bid(2, 80300, 1_000_000_000)
        .bid(10, 130900, 29_000_000_000)
        .bid(11, 111800, 15_000_000_000)
        .bid(12, 105500, 10_000_000_000);
    case(rt, b"2.c LA", Side::La, 169000, 100_000_000_000, b)?;
    case(rt, b"2.c LP", Side::Lp, 81700, 100_000_000_000, b)?;
    let limited = b.limit(1, 25_000_000_000);
    case(
        rt,
        b"2.c LP limited",
        Side::Lp,
        81700,
        100_000_000_000,
        limited,
    )
}
