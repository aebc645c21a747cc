// What is printed of a case: its name, what is awarded, and the marginal rate or none.
ghost use Rattle.std.specs.Prelude.{◌≡◌, length};

use crate::book::Bids;
use allotment::internal::allot;
use announcement::Side;
use bids::BidColumns;
use offer::Offer;
use places::{Amount, Rate};
use std::io;

// The sum of awards, and how many are above zero.
#[derive(Clone, Copy)]
struct Summary {
    sum: u64,
    count: u64,
}

// An award above zero, with its place.
fn print_award(rt: &impl Print, place: usize, cents: u64) -> io::Result<()> {
    if cents == 0 {
        return Ok(());
    }
    printing::number(rt, place as u64)?;
    print!(rt; ":{cents}")
}

fn print_marginal_rate(rt: &impl Print, m: Option<Rate>) -> io::Result<()> {
    match m {
        Some(rate) => {
            printing::text(rt, b" rate")?;
            printing::number(rt, rate.0 as u64)?;
        }
        None => printing::text(rt, b" none")?,
    }
    printing::end(rt)
}

fn print_refusal(rt: &impl Print, exceeds: bool) -> io::Result<()> {
    if exceeds {
        printing::text(rt, b" exceeds")?;
    }
    Ok(())
}

fn print_awards(rt: &impl Print, awards: &[u64]) -> io::Result<()> {
    for (i, &cents) in awards.iter().enumerate() {
        print_award(rt, i, cents)?;
    }
    Ok(())
}

// The summary with one more award; the amount offered bounds the sum.
fn counted(s: Summary, cents: u64) -> Summary {
    Summary {
        sum: s.sum.wrapping_add(cents),
        count: s.count.wrapping_add(u64::from(0 < cents)),
    }
}

fn summarise(awards: &[u64]) -> Summary {
    let none = Summary { sum: 0, count: 0 };
    awards.iter().fold(none, |s, &cents| counted(s, cents))
}

// Allots, writes the awards, and prints the name and whether condition 16 refuses.
fn begin(
    rt: &impl Print,
    name: &[u8],
    side: Side,
    limit: u32,
    offered: u64,
    b: Bids,
    awards: &mut [u64],
) -> io::Result<Option<Rate>>
    requires { length awards.old ≡ 640 }
{
    let o = Offer {
        side,
        limit: Rate(limit),
        offered: Amount(offered),
    };
    let rates = b.rates;
    let amounts = b.amounts;
    let limits = b.limits;
    let bids = BidColumns {
        rates: &rates,
        amounts: &amounts,
    };
    let a = allot(o, &limits, bids, awards);
    printing::text(rt, name)?;
    print_refusal(rt, a.is_err())?;
    Ok(a.unwrap_or(None))
}

// A case with each of its awards.
pub fn case(
    rt: &impl Print,
    name: &[u8],
    side: Side,
    limit: u32,
    offered: u64,
    b: Bids,
) -> io::Result<()> {
    let mut awards = [0u64; 640];
    let marginal = begin(rt, name, side, limit, offered, b, &mut awards)?;
    print_awards(rt, &awards)?;
    print_marginal_rate(rt, marginal)
}

// A case with too many awards to print each of them: their sum, how many there are, and those at the first and the last place.
pub fn summed(
    rt: &impl Print,
    name: &[u8],
    side: Side,
    limit: u32,
    offered: u64,
    b: Bids,
) -> io::Result<()> {
    let mut awards = [0u64; 640];
    let marginal = begin(rt, name, side, limit, offered, b, &mut awards)?;
    let s = summarise(&awards);
    printing::text(rt, b" sum")?;
    printing::number(rt, s.sum)?;
    printing::text(rt, b" awards")?;
    printing::number(rt, s.count)?;
    print_award(rt, 0, awards[0])?;
    print_award(rt, 639, awards[639])?;
    print_marginal_rate(rt, marginal)
}
