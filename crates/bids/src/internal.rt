// Parts of two columns; each asks for indices within them.
ghost use Rattle.std.specs.Prelude.{◌≡◌, ◌-◌, ◌<◌, ◌≤◌, length, get_or, take, drop};
ghost use Rattle.rules.specs.Allotment.{no_bid};
ghost use Rattle.bids.specs.Columns.{viewed, bids_of, bids_in};

use crate::Bid;
use crate::side_by_side::BidColumns;
use places::{Amount, Rate};

// The bid at an index.
pub fn bid(bids: BidColumns, i: usize) -> Bid
    requires { i < length (bids_in bids) }
    ensures { viewed result ≡ get_or (bids_in bids.entry) i no_bid }
{
    bid_at(bids.rates, bids.amounts, i)
}

// The bids from one index up to another.
pub fn part<'a>(bids: BidColumns<'a>, from: usize, to: usize) -> BidColumns<'a>
    requires from_bound { from ≤ to }
    requires to_bound { to ≤ length (bids_in bids) }
    ensures { bids_in result ≡ take (to - from) (drop from (bids_in bids.entry)) }
{
    part_of(bids.rates, bids.amounts, from, to)
}

// The two below read slices that are parameters: that an index times the size of an element fits is known of those, and not of fields.

// The bid of a rate and an amount at one index.
fn bid_at(rates: &[u32], amounts: &[u64], i: usize) -> Bid
    requires rates_in_bounds { i < length rates.now }
    requires amounts_in_bounds { i < length amounts.now }
    ensures rate { result.rate.0 ≡ get_or rates.now i 0 }
    ensures amount { result.amount.0 ≡ get_or amounts.now i 0 }
{
    Bid {
        rate: Rate(rates[i]),
        amount: Amount(amounts[i]),
    }
}

// The rates and amounts from one index up to another.
fn part_of<'a>(rates: &'a [u32], amounts: &'a [u64], from: usize, to: usize) -> BidColumns<'a>
    requires paired { length rates.now ≡ length amounts.now }
    requires from_bound { from ≤ to }
    requires to_bound { to ≤ length amounts.now }
    ensures { bids_in result ≡ take (to - from) (drop from (bids_of rates.now amounts.now)) }
{
    BidColumns {
        rates: &rates[from..to],
        amounts: &amounts[from..to],
    }
}
