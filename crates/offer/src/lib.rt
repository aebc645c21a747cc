// An offer, which of the bids in a book are in, and their totals by rate.
#![tactic(auto)]

pub mod around;
pub mod internal;

ghost use Rattle.std.specs.Prelude.{◌≡◌, true, ltb};
ghost use Rattle.rules.specs.Allotment.{better_rate, is_in, is_better, is_equal, sum};
ghost use Rattle.bids.specs.Columns as columns;
ghost use Rattle.offer.specs.Viewed.{viewed, ranks, most_bids};

use announcement::Side;
pub use around::Totals;
use bids::{Bid, is_filled};
use places::{Amount, Rate};

// What allotting takes from the announcement.
#[derive(Clone, Copy)]
pub struct Offer {
    pub side: Side,
    pub limit: Rate,
    pub offered: Amount,
}

// The rank of a rate: a better rate has a lower one, so that both sides compare alike.
pub fn rank(side: Side, rate: Rate) -> u32
    ensures { ranks side rate.0 result ≡ true }
{
    match side {
        Side::La => rate.0,
        Side::Lp => 4294967295 - rate.0,
    }
}

// Whether a rate is better than another.
pub fn is_better(side: Side, rate: Rate, other: Rate) -> bool
    ensures { result ≡ better_rate side rate.0 other.0 }
{
    rank(side, rate) < rank(side, other)
}

// Whether a place holds a bid within the limit rate.
pub fn is_in(o: Offer, b: Bid) -> bool
    ensures { result ≡ is_in (viewed o) (columns.viewed b) }
{
    let side = o.side;
    is_filled(b) & !is_better(side, o.limit, b.rate)
}

// Whether a bid in stands at a better rate than this one.
pub fn stands_better(o: Offer, b: Bid, rate: Rate) -> bool
    ensures { result ≡ is_better (viewed o) rate.0 (columns.viewed b) }
{
    let side = o.side;
    is_in(o, b) & is_better(side, b.rate, rate)
}

// Whether a bid in stands at this rate.
pub fn stands_equal(o: Offer, b: Bid, rate: Rate) -> bool
    ensures { result ≡ is_equal (viewed o) rate.0 (columns.viewed b) }
{
    is_in(o, b) & (b.rate.0 == rate.0)
}

// Whether the bids in the book exceed what condition 16 allows; what is left of that falls to zero, so that no sum can overflow.
pub fn exceeds(amounts: &[u64]) -> bool
    ensures { result ≡ ltb most_bids (sum amounts.now) }
{
    let mut over = false;
    let mut left = 999_999_999_999_999_999u64;
    for amount in amounts {
        over |= left < *amount;
        left = left.saturating_sub(*amount);
    }
    over
}
