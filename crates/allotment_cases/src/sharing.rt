// What becomes of the amount offered.
use crate::book::Bids;
use crate::line::case;
use announcement::Side;
use std::io;

// The offer is met exactly at the last rate, exactly before it, and not met by one cent.
pub fn met(rt: &impl Print) -> io::Result<()> {
    let b = Bids::none()
        .bid(0, 150000, 60000)
        .bid(10, 120000, 30000)
        .bid(20, 120000, 10000);
    case(rt, b"met exactly", Side::Lp, 100000, 100000, b)?;
    case(rt, b"met before the last rate", Side::Lp, 100000, 60000, b)?;
    case(rt, b"one cent not met", Side::Lp, 100000, 100001, b)
}

// Fewer cents left than bids go to the first in book order; then two bids of one counterparty share as two counterparties do.
pub fn cents(rt: &impl Print) -> io::Result<()> {
    let five = Bids::none()
        .bid(30, 120000, 10000)
        .bid(49, 120000, 70000)
        .bid(50, 120000, 10000)
        .bid(630, 120000, 10000)
        .bid(639, 120000, 10000);
    let six = five.bid(100, 130000, 40000);
    let own = Bids::none()
        .bid(70, 120000, 30000)
        .bid(71, 120000, 20000)
        .bid(80, 110000, 10000);
    case(rt, b"three cents for five", Side::Lp, 100000, 3, five)?;
    case(rt, b"leftover cents", Side::La, 200000, 10003, five)?;
    case(rt, b"behind a better bid", Side::Lp, 100000, 50001, six)?;
    case(rt, b"one counterparty", Side::La, 200000, 33334, own)
}

// Shares of two thirds and of a third, some of them whole: the cents that are left go by book order, whether a share is whole or not.
pub fn whole_shares(rt: &impl Print) -> io::Result<()> {
    let first = Bids::none()
        .bid(0, 120000, 30000)
        .bid(10, 120000, 20000)
        .bid(20, 120000, 10000);
    let second = Bids::none()
        .bid(0, 120000, 20000)
        .bid(1, 120000, 30000)
        .bid(10, 120000, 20000)
        .bid(20, 120000, 20000);
    case(rt, b"whole share first", Side::Lp, 100000, 40000, first)?;
    case(rt, b"whole share second", Side::La, 200000, 30000, second)
}
