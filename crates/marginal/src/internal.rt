// The walk over the bids in, best rate first, for bids that condition 16 allows.
ghost use Rattle.std.specs.Prelude.{◌≡◌, true, ◌/◌, ◌%◌, ◌<◌, ◌≤◌, length};
ghost use Rattle.sort.specs.Sorting.{Rising};
ghost use Rattle.rules.specs.Allotment.{marginal_rate, total};
ghost use Rattle.bids.specs.Columns.{bids_in};
ghost use Rattle.offer.specs.Viewed.{viewed, ranks, most_bids};
ghost use Rattle.marginal.specs.Ranks.{rate_in, Ranked, RankedFirst};

use announcement::Side;
use bids::BidColumns;
use bids::internal::bid;
use offer::{Offer, is_in, rank};
use places::Rate;
use sort::sort;

// The key of a place: the rank of its rate, then its index, so that keys rise from the best rate to the worst and in book order at one rate.
fn key(side: Side, rate: Rate, i: usize) -> u64
    requires { i < 640 }
    ensures { (result % 1024 ≡ i) × (ranks side rate.0 (result / 1024) ≡ true) }
{
    u64::from(rank(side, rate)) * 1024 + i as u64
}

// Writes the keys of the bids in, in book order, and gives how many they are; a key of another place is written over by the next.
pub fn keys_in(o: Offer, bids: BidColumns, keys: &mut [u64]) -> usize
    requires bids_len_bound { length (bids_in bids) ≤ 640 }
    requires bids_in_bounds { length (bids_in bids) ≤ length keys.old }
    ensures { RankedFirst (viewed o) (bids_in bids.entry) (length (bids_in bids.entry)) result keys.new }
{
    let side = o.side;
    let mut n = 0;
    for i in 0..bids.len() {
        let b = bid(bids, i);
        keys[n] = key(side, b.rate, i);
        n += usize::from(is_in(o, b));
    }
    n
}

// The rate of the first key, best first, at which the running total reaches the amount offered.
pub fn first_reaching(o: Offer, bids: BidColumns, keys: &[u64]) -> Option<Rate>
    requires bids_bound { total (bids_in bids) ≤ most_bids }
    requires ranked { Ranked (viewed o) (bids_in bids) keys.now }
    requires rising { Rising keys.now }
    ensures { rate_in result ≡ marginal_rate (viewed o) (bids_in bids.entry) }
{
    let mut sum = 0;
    let mut j = 0;
    // Document 01 names this form: a loop that yields the marginal rate by break.
    loop {
        if j == keys.len() {
            break None;
        }
        let b = bid(bids, (keys[j] % 1024) as usize);
        sum += b.amount.0;
        if o.offered.0 <= sum {
            break Some(b.rate);
        }
        j += 1;
    }
}

// Sorts the keys and walks over them.
fn walk(o: Offer, bids: BidColumns, keys: &mut [u64]) -> Option<Rate>
    requires bids_bound { total (bids_in bids) ≤ most_bids }
    requires ranked { Ranked (viewed o) (bids_in bids) keys.old }
    ensures { rate_in result ≡ marginal_rate (viewed o) (bids_in bids.entry) }
{
    sort(keys);
    first_reaching(o, bids, keys)
}

// The marginal rate of the bids by their keys, for which the space is; what it holds afterwards is left open.
fn by_keys(o: Offer, bids: BidColumns, keys: &mut [u64]) -> Option<Rate>
    requires bids_len_bound { length (bids_in bids) ≤ 640 }
    requires bids_in_bounds { length (bids_in bids) ≤ length keys.old }
    requires bids_bound { total (bids_in bids) ≤ most_bids }
    ensures { rate_in result ≡ marginal_rate (viewed o) (bids_in bids.entry) }
{
    let n = keys_in(o, bids, keys);
    walk(o, bids, &mut keys[..n])
}

// The marginal rate of the bids. A space for keys is cleared first, so that few bids have a small one.
pub fn marginal_rate(o: Offer, bids: BidColumns) -> Option<Rate>
    requires bids_len_bound { length (bids_in bids) ≤ 640 }
    requires bids_bound { total (bids_in bids) ≤ most_bids }
    ensures { rate_in result ≡ marginal_rate (viewed o) (bids_in bids.entry) }
{
    if bids.len() <= 100 {
        let mut few = [0u64; 100];
        return by_keys(o, bids, &mut few);
    }
    let mut keys = [0u64; 640];
    by_keys(o, bids, &mut keys)
}
