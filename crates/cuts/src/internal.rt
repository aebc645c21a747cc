// Bids whose rates and amounts stand side by side, cut to the credit limits, for bids that condition 16 allows.
ghost use Rattle.std.specs.Prelude.{◌≡◌, ◌-◌, ◌*◌, ◌<◌, ◌≤◌, length, get_or};
ghost use Rattle.rules.specs.Allotment.{no_bid, total};
ghost use Rattle.rules.specs.Cuts.{cut_above, cut_bids, cut_book};
ghost use Rattle.bids.specs.Columns.{bids_of, bids_in};
ghost use Rattle.bids.specs.Columns as columns;
ghost use Rattle.offer.specs.Viewed.{viewed, most_bids};
ghost use Rattle.cuts.specs.Walked.{walked};

use crate::is_capped;
use bids::internal::{bid, part};
use bids::{Bid, BidColumns};
use offer::internal::where_holds;
use offer::{Offer, is_in};
use places::{Amount, Rate};

// A bid cut to what is left of a cap.
fn cut_above(left: u64, b: Bid) -> Bid
    ensures { columns.viewed result ≡ cut_above left (columns.viewed b) }
{
    if b.amount.0 <= left {
        return b;
    }
    if left == 0 {
        return Bid {
            rate: Rate(0),
            amount: Amount(0),
        };
    }
    let rate = b.rate;
    Bid {
        rate,
        amount: Amount(left),
    }
}

// What a cap leaves to the bid at place i: every place is looked at, so that nothing is sorted.
fn left_of_cap(cap: u64, bids: BidColumns, i: usize) -> u64
    requires i_in_bounds { i < length (bids_in bids) }
    requires amounts_bound { total (bids_in bids) ≤ most_bids }
    ensures { result ≡ cap - walked (get_or (bids_in bids.entry) i no_bid).rate i 0 (bids_in bids.entry) }
{
    let rate = bid(bids, i).rate.0;
    let mut before = 0;
    for j in 0..bids.len() {
        let b = bid(bids, j);
        let other = b.rate.0;
        before += where_holds((rate < other) | ((other == rate) & (j < i)), b.amount.0);
    }
    cap.saturating_sub(before)
}

// One counterparty's bid at place i, cut where its limit cuts.
fn cut_place(o: Offer, cap: u64, bids: BidColumns, i: usize) -> Bid
    requires i_in_bounds { i < length (bids_in bids) }
    requires amounts_bound { total (bids_in bids) ≤ most_bids }
    ensures { columns.viewed result ≡ get_or (cut_bids (viewed o) cap (bids_in bids.entry)) i no_bid }
{
    let b = bid(bids, i);
    if is_capped(o, cap) & is_in(o, b) {
        return cut_above(left_of_cap(cap, bids, i), b);
    }
    b
}

// Writes the bids cut to the limits, one a code, in book order.
pub fn cut_book(
    o: Offer,
    limits: &[u64],
    bids: BidColumns,
    cut_rates: &mut [u32],
    cut_amounts: &mut [u64],
)
    requires limits_value { 10 * length limits.now ≡ length (bids_in bids) }
    requires cut_rates_len { length cut_rates.old ≡ length (bids_in bids) }
    requires cut_amounts_len { length cut_amounts.old ≡ length (bids_in bids) }
    requires amounts_bound { total (bids_in bids) ≤ most_bids }
    ensures { bids_of cut_rates.new cut_amounts.new ≡ cut_book (viewed o) limits.now (bids_in bids.entry) }
{
    for i in 0..bids.len() {
        let k = i / 10;
        let at = 10 * k;
        let b = cut_place(o, limits[k], part(bids, at, at + 10), i - at);
        cut_rates[i] = b.rate.0;
        cut_amounts[i] = b.amount.0;
    }
}
