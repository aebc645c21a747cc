// Awards around the last rate served, for bids that condition 16 allows. In every function q is the amount offered and t the totals at rates better
// than the last one, and at it.
ghost use Rattle.std.specs.Prelude.{◌≡◌, cond, ◌&&◌, ◌≤◌, ltb, length};
ghost use Rattle.rules.specs.Allotment.{is_equal, total};
ghost use Rattle.rules.specs.Allotment as rules;
ghost use Rattle.bids.specs.Columns.{bids_in};
ghost use Rattle.bids.specs.Columns as columns;
ghost use Rattle.offer.specs.Viewed.{viewed, most_bids};
ghost use Rattle.awards.specs.LastRate.{shared_out, served, cents_at, served_in, cents_in, LastRate, ServesAll};

use bids::internal::bid;
use bids::{Bid, BidColumns};
use division::internal::divide;
use offer::internal::{totals, where_holds};
use offer::{Offer, Totals, is_better, is_in, stands_equal};
use places::{Amount, Rate};

// What an amount at the last rate gets, the cents left apart.
fn shared_out(q: Amount, t: Totals, amount: Amount) -> Amount
    ensures { result.0 ≡ shared_out q.0 t.better.0 t.equal.0 amount.0 }
{
    if t.better.0 + t.equal.0 <= q.0 {
        return amount;
    }
    if q.0 <= t.better.0 {
        return Amount(0);
    }
    let left = Amount(q.0 - t.better.0);
    divide(amount, left, t.equal).quotient
}

// What a bid is served, the cents left apart.
fn serve(o: Offer, bid: Bid, last: Rate, t: Totals) -> Amount
    ensures { result.0 ≡ served (viewed o) last.0 t.better.0 t.equal.0 (columns.viewed bid) }
{
    let side = o.side;
    if is_in(o, bid) {
        if is_better(side, bid.rate, last) {
            return bid.amount;
        }
        if is_better(side, last, bid.rate) {
            return Amount(0);
        }
        return shared_out(o.offered, t, bid.amount);
    }
    Amount(0)
}

// The cents left at the last rate, where `shared` is what its bids are served together.
fn cents_left(q: Amount, t: Totals, shared: u64) -> u64
    ensures { result ≡ cents_at q.0 t.better.0 t.equal.0 shared }
{
    if t.better.0 + t.equal.0 <= q.0 {
        return 0;
    }
    let rest = q.0.saturating_sub(t.better.0);
    rest.saturating_sub(shared)
}

// The cent that a bid gets, where so many are left.
fn cent(o: Offer, bid: Bid, last: Rate, left: u64) -> u64
    ensures { (result ≡ cond (is_equal (viewed o) last.0 (columns.viewed bid) && ltb 0 left) 1 0) × (result ≤ left) × (result ≤ 1) }
{
    u64::from(stands_equal(o, bid, last) & (0 < left))
}

// Writes what all bids are served, the cents left apart, and gives what those at the last rate are served together.
fn serve_all(o: Offer, bids: BidColumns, last: Rate, t: Totals, awards: &mut [u64]) -> u64
    requires awards_len { length awards.old ≡ length (bids_in bids) }
    requires bids_bound { total (bids_in bids) ≤ most_bids }
    ensures { ServesAll (viewed o) last.0 t.better.0 t.equal.0 (bids_in bids.entry) awards.new result }
{
    let mut shared = 0;
    for (i, award) in awards.iter_mut().enumerate() {
        let bid = bid(bids, i);
        let given = serve(o, bid, last, t).0;
        *award = given;
        shared += where_holds(stands_equal(o, bid, last), given);
    }
    shared
}

// Adds the cents left, one to each bid at the last rate, in book order.
fn add_cents(o: Offer, bids: BidColumns, last: Rate, cents: u64, awards: &mut [u64])
    requires bids_bound { total (bids_in bids) ≤ most_bids }
    requires last_rate { LastRate (viewed o) (bids_in bids) last.0 }
    requires cents_value { cents ≡ cents_in (viewed o) (bids_in bids) last.0 }
    requires awards_value { awards.old ≡ served_in (viewed o) (bids_in bids) last.0 }
    ensures { awards.new ≡ rules.awards (viewed o) (bids_in bids.entry) }
{
    let mut left = cents;
    for (i, award) in awards.iter_mut().enumerate() {
        let c = cent(o, bid(bids, i), last, left);
        *award += c;
        left -= c;
    }
}

// Writes the awards of all bids, in book order.
pub fn awards_at(o: Offer, bids: BidColumns, last: Rate, awards: &mut [u64])
    requires awards_len { length awards.old ≡ length (bids_in bids) }
    requires bids_bound { total (bids_in bids) ≤ most_bids }
    requires last_rate { LastRate (viewed o) (bids_in bids) last.0 }
    ensures { awards.new ≡ rules.awards (viewed o) (bids_in bids.entry) }
{
    let t = totals(o, bids, last);
    let shared = serve_all(o, bids, last, t, awards);
    let cents = cents_left(o.offered, t, shared);
    if cents == 0 {
        return;
    }
    add_cents(o, bids, last, cents, awards);
}
