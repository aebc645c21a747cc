// The allotment of bids in two columns.
ghost use Rattle.std.specs.Prelude.{◌≡◌, ◌*◌, ◌≤◌, length};
ghost use Rattle.rules.specs.Allotment.{total, marginal_rate};
ghost use Rattle.rules.specs.Allotment as rules;
ghost use Rattle.rules.specs.Cuts.{cut_book};
ghost use Rattle.awards.specs.LastRate.{last_of};
ghost use Rattle.bids.specs.Columns.{bids_of, bids_in};
ghost use Rattle.marginal.specs.Ranks.{rate_in};
ghost use Rattle.offer.specs.Viewed.{viewed, most_bids};
ghost use Rattle.allotment.specs.Allotted.{Taken, AllotsTo};

use crate::BidsExceed;
use awards::internal::awards_at;
use bids::BidColumns;
use cuts::any_capped;
use cuts::internal::cut_book;
use marginal::internal::marginal_rate;
use offer::{Offer, exceeds};
use places::Rate;

// The last rate served: the marginal rate, or the limit rate where there is none.
fn last_rate(o: Offer, m: Option<Rate>) -> Rate
    ensures { result.0 ≡ last_of (viewed o) (rate_in m) }
{
    m.unwrap_or(o.limit)
}

// Writes the awards of bids whose marginal rate is known, in book order. In one function with the search for that rate the shares took a fifth longer.
fn award(o: Offer, marginal: Option<Rate>, bids: BidColumns, awards: &mut [u64])
    requires awards_len { length awards.old ≡ length (bids_in bids) }
    requires bids_bound { total (bids_in bids) ≤ most_bids }
    requires marginal_value { rate_in marginal ≡ marginal_rate (viewed o) (bids_in bids) }
    ensures { awards.new ≡ rules.awards (viewed o) (bids_in bids.entry) }
{
    let last = last_rate(o, marginal);
    awards_at(o, bids, last, awards);
}

// Allots to the bids as they came.
fn allot_uncut(o: Offer, bids: BidColumns, awards: &mut [u64]) -> Option<Rate>
    requires awards_len { length awards.old ≡ length (bids_in bids) }
    requires bids_len_bound { length (bids_in bids) ≤ 640 }
    requires bids_bound { total (bids_in bids) ≤ most_bids }
    ensures { Taken (viewed o) (bids_in bids.entry) result awards.new }
{
    let marginal = marginal_rate(o, bids);
    award(o, marginal, bids, awards);
    marginal
}

// Allots to the bids as they are cut into lent columns.
fn allot_cut(
    o: Offer,
    limits: &[u64],
    bids: BidColumns,
    cut_rates: &mut [u32],
    cut_amounts: &mut [u64],
    awards: &mut [u64],
) -> Option<Rate>
    requires limits_value { 10 * length limits.now ≡ length (bids_in bids) }
    requires cut_rates_len { length cut_rates.old ≡ length (bids_in bids) }
    requires cut_amounts_len { length cut_amounts.old ≡ length (bids_in bids) }
    requires awards_len { length awards.old ≡ length (bids_in bids) }
    requires bids_len_bound { length (bids_in bids) ≤ 640 }
    requires bids_bound { total (bids_in bids) ≤ most_bids }
    ensures { Taken (viewed o) (cut_book (viewed o) limits.now (bids_in bids.entry)) result awards.new }
{
    cut_book(o, limits, bids, cut_rates, cut_amounts);
    let cut = BidColumns {
        rates: cut_rates,
        amounts: cut_amounts,
    };
    let marginal = marginal_rate(o, cut);
    award(o, marginal, cut, awards);
    marginal
}

// Allots to the bids cut to the limits; their columns are made here.
fn allot_limited(o: Offer, limits: &[u64], bids: BidColumns, awards: &mut [u64]) -> Option<Rate>
    requires limits_value { 10 * length limits.now ≡ length (bids_in bids) }
    requires awards_len { length awards.old ≡ length (bids_in bids) }
    requires bids_len_bound { length (bids_in bids) ≤ 640 }
    requires bids_bound { total (bids_in bids) ≤ most_bids }
    ensures { Taken (viewed o) (cut_book (viewed o) limits.now (bids_in bids.entry)) result awards.new }
{
    let n = bids.len();
    let mut cut_rates = [0u32; 640];
    let mut cut_amounts = [0u64; 640];
    allot_cut(
        o,
        limits,
        bids,
        &mut cut_rates[..n],
        &mut cut_amounts[..n],
        awards,
    )
}

// Allots an offer to bids, cut where a limit cuts, and writes the awards, in book order; refused, it writes nothing. Condition 16 looks at the bids
// as they came, and where nobody is capped nothing is copied.
pub fn allot(
    o: Offer,
    limits: &[u64],
    bids: BidColumns,
    awards: &mut [u64],
) -> Result<Option<Rate>, BidsExceed>
    requires limits_value { 10 * length limits.now ≡ length bids.amounts.now }
    requires awards_len { length awards.old ≡ length bids.amounts.now }
    requires amounts_len_bound { length bids.amounts.now ≤ 640 }
    ensures { AllotsTo (viewed o) limits.now (bids_in bids.entry) awards.old result awards.new }
{
    if exceeds(bids.amounts) {
        return Err(BidsExceed);
    }
    if any_capped(o, limits) {
        return Ok(allot_limited(o, limits, bids, awards));
    }
    Ok(allot_uncut(o, bids, awards))
}
