// Totals over the bids, which condition 16 keeps within 64 bits.
ghost use Rattle.std.specs.Prelude.{◌≡◌, cond, ◌≤◌};
ghost use Rattle.rules.specs.Allotment.{total};
ghost use Rattle.bids.specs.Columns.{bids_in};
ghost use Rattle.offer.specs.Viewed.{viewed, TotalsAt, most_bids};

use crate::{Offer, Totals, stands_better, stands_equal};
use bids::BidColumns;
use bids::internal::bid;
use places::{Amount, Rate};

// A number where a condition holds, else zero.
pub fn where_holds(condition: bool, n: u64) -> u64
    ensures { result ≡ cond condition n 0 }
{
    if condition { n } else { 0 }
}

// The totals at rates better than this one, and at it.
pub fn totals(o: Offer, bids: BidColumns, rate: Rate) -> Totals
    requires { total (bids_in bids) ≤ most_bids }
    ensures { TotalsAt (viewed o) (bids_in bids.entry) rate.0 result }
{
    let mut better = 0;
    let mut equal = 0;
    for i in 0..bids.len() {
        let b = bid(bids, i);
        better += where_holds(stands_better(o, b, rate), b.amount.0);
        equal += where_holds(stands_equal(o, b, rate), b.amount.0);
    }
    Totals {
        better: Amount(better),
        equal: Amount(equal),
    }
}
