// Credit limits, which cut the bids of the counterparties in LP.
use crate::book::Bids;
use crate::line::{case, summed};
use announcement::Side;
use std::io;

const WIDEST: u64 = 999_999_999_999_999;

// One counterparty's bids: the best first, whatever its place, equal rates by place, and nothing after one that does not fit.
pub fn one_code(rt: &impl Print) -> io::Result<()> {
    let smaller = Bids::none()
        .bid(0, 130000, 50)
        .bid(1, 120000, 100)
        .bid(2, 110000, 10)
        .limit(0, 60);
    let equal = Bids::none()
        .bid(0, 120000, 20)
        .bid(1, 130000, 20)
        .bid(2, 120000, 20)
        .limit(0, 45);
    let out = Bids::none()
        .bid(0, 99000, 30)
        .bid(1, 100000, 50)
        .limit(0, 40);
    case(
        rt,
        b"smaller after one cut",
        Side::Lp,
        100000,
        1000,
        smaller,
    )?;
    case(rt, b"equal rates by place", Side::Lp, 100000, 1000, equal)?;
    case(rt, b"out uses no limit", Side::Lp, 100000, 1000, out)
}

// A limit met exactly, by all bids and by the first of them; then the highest limit.
pub fn met(rt: &impl Print) -> io::Result<()> {
    let two = Bids::none().bid(0, 120000, 30).bid(1, 110000, 10);
    let wide = Bids::none()
        .bid(0, 120000, 2)
        .bid(1, 130000, WIDEST - 1)
        .limit(0, WIDEST);
    case(
        rt,
        b"limit met by both",
        Side::Lp,
        100000,
        1000,
        two.limit(0, 40),
    )?;
    case(
        rt,
        b"limit met by one",
        Side::Lp,
        100000,
        1000,
        two.limit(0, 30),
    )?;
    case(rt, b"highest limit", Side::Lp, 100000, WIDEST + 1, wide)
}

// Two counterparties: the bids are cut and not the awards, the marginal rate is that of the cut bids, and in LA nothing is cut.
pub fn two_codes(rt: &impl Print) -> io::Result<()> {
    let level = Bids::none().bid(0, 120000, 100).bid(10, 120000, 100);
    let apart = Bids::none().bid(0, 120000, 100).bid(10, 110000, 100);
    let first = apart.limit(0, 40);
    let both = first.limit(1, 50);
    case(
        rt,
        b"first limited",
        Side::Lp,
        100000,
        100,
        level.limit(0, 40),
    )?;
    case(
        rt,
        b"second limited",
        Side::Lp,
        100000,
        100,
        level.limit(1, 40),
    )?;
    case(rt, b"worse rate reached", Side::Lp, 100000, 100, first)?;
    case(rt, b"offer not reached", Side::Lp, 100000, 100, both)?;
    case(rt, b"limits in LA", Side::La, 130000, 100, both)
}

// A bid cut to zero gets no cent that is left, and condition 16 looks at the bids as they came.
pub fn dropped(rt: &impl Print) -> io::Result<()> {
    let four = Bids::none()
        .bid(0, 120000, 10)
        .bid(1, 120000, 10)
        .bid(10, 120000, 10)
        .bid(11, 120000, 10)
        .limit(0, 10);
    let large = Bids::none()
        .bid(0, 120000, 1_000_000_000_000_000_000)
        .limit(0, 40);
    case(rt, b"no cent when cut out", Side::Lp, 100000, 11, four)?;
    case(rt, b"exceeds uncut", Side::Lp, 100000, 100, large)
}

// Every counterparty limited: two bids and a half of ten at rising rates, and one bid of ten at one rate.
pub fn every_code(rt: &impl Print) -> io::Result<()> {
    let b = Bids::at_rising_rates(1000);
    let rates = b.rates;
    let amounts = b.amounts;
    let rising = Bids {
        rates,
        amounts,
        limits: [2500u64; 64],
    };
    let level = Bids {
        rates: [120000u32; 640],
        amounts: [WIDEST; 640],
        limits: [WIDEST; 64],
    };
    summed(rt, b"64 limits", Side::Lp, 0, 100001, rising)?;
    summed(rt, b"one bid a code", Side::Lp, 120000, WIDEST, level)
}
