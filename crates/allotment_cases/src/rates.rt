// Which bids are in, by their rates.
use crate::book::Bids;
use crate::line::case;
use announcement::Side;
use std::io;

// The limit rate is in, and a rate one step or less beyond it is out; the other limit rates leave every bid out.
pub fn limit(rt: &impl Print) -> io::Result<()> {
    let b = Bids::none()
        .bid(0, 99000, 10000)
        .bid(1, 99999, 20000)
        .bid(10, 100000, 40000)
        .bid(20, 100001, 80000)
        .bid(21, 101000, 160000);
    case(rt, b"limit LP", Side::Lp, 100000, 1000000, b)?;
    case(rt, b"limit LA", Side::La, 100000, 1000000, b)?;
    case(rt, b"all out LP", Side::Lp, 102000, 10000, b)?;
    case(rt, b"all out LA", Side::La, 98000, 10000, b)
}

// Limit rates of five decimals and of zero, with a bid on each side or at it: the offer is met by both together, and not by one alone.
pub fn fine_and_zero(rt: &impl Print) -> io::Result<()> {
    let fine = Bids::none().bid(0, 100000, 10000).bid(10, 101000, 20000);
    let zero = Bids::none().bid(0, 0, 10000).bid(10, 1000, 20000);
    case(rt, b"five decimals LP", Side::Lp, 100001, 25000, fine)?;
    case(rt, b"five decimals LA", Side::La, 100001, 25000, fine)?;
    case(rt, b"limit zero LP", Side::Lp, 0, 25000, zero)?;
    case(rt, b"limit zero LA", Side::La, 0, 25000, zero)
}

// Bids at rate zero between empty places, which are no bids and get no cent; then the widest rates of a place and of 32 bits.
pub fn ends(rt: &impl Print) -> io::Result<()> {
    let zero = Bids::none()
        .bid(1, 0, 10000)
        .bid(11, 0, 10000)
        .bid(21, 0, 10000);
    let four = zero.bid(0, 1000, 5000);
    let wide = Bids::none()
        .bid(0, 99999999, 10000)
        .bid(10, 4294967295, 10000);
    case(rt, b"rate zero LA", Side::La, 0, 10001, zero)?;
    case(rt, b"rate zero LP", Side::Lp, 0, 10001, zero)?;
    case(rt, b"rate zero is last LP", Side::Lp, 0, 15001, four)?;
    case(rt, b"rate zero is first LA", Side::La, 1000, 32000, four)?;
    case(rt, b"widest rates", Side::Lp, 0, 15000, wide)
}
