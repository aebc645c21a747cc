// The checks of an application's ten bids.
#![tactic(auto)]

pub mod internal;
pub mod side_by_side;

ghost use Rattle.std.specs.Prelude.{◌≡◌, ◌-◌, ◌%◌, ◌≤◌, length};
ghost use Rattle.rules.specs.Allotment.{filled, keep, no_bid};
ghost use Rattle.rules.specs.Opening.{any};
ghost use Rattle.rules.specs.Receiving.{gap, fine_rate, small_bid, uneven_bid, over_maximum};
ghost use Rattle.bids.specs.Columns.{viewed, Asked, bids_from, bids_of, bids_in};

use places::{Amount, Rate};
pub use side_by_side::BidColumns;

// A rate and an amount.
#[derive(Clone, Copy)]
pub struct Bid {
    pub rate: Rate,
    pub amount: Amount,
}

impl<'a> BidColumns<'a> {
    // How many bids there are.
    pub fn len(self) -> usize
        ensures { result ≡ length (bids_in self.entry) }
    {
        self.amounts.len()
    }
}

// Whether a place is filled.
pub fn is_filled(b: Bid) -> bool
    ensures { result ≡ filled (viewed b) }
{
    !((b.rate.0 == 0) & (b.amount.0 == 0))
}

// Whether a rate has any of its last three digits not zero.
pub fn is_fine(b: Bid) -> bool
    ensures { result ≡ fine_rate (viewed b) }
{
    b.rate.0 % 1000 != 0
}

// Whether a filled place's amount is below the minimum.
pub fn is_small(b: Bid, minimum: Amount) -> bool
    ensures { result ≡ small_bid minimum.0 (viewed b) }
{
    is_filled(b) & (b.amount.0 < minimum.0)
}

// What is left of n after whole steps; without a step all of it is.
fn rest(n: u64, step: u64) -> u64
    ensures { result ≡ n % step }
{
    if step == 0 {
        return n;
    }
    n % step
}

// Whether an amount at or above the minimum is not minimum plus a multiple of the increment.
pub fn is_uneven(b: Bid, minimum: Amount, increment: Amount) -> bool
    ensures { result ≡ uneven_bid minimum.0 increment.0 (viewed b) }
{
    let amount = b.amount.0;
    let least = minimum.0;
    if amount < least {
        return false;
    }
    rest(amount - least, increment.0) != 0
}

// Whether a filled place comes after a zero one.
pub fn has_gap(rates: [Rate; 10], amounts: [Amount; 10]) -> bool
    ensures { result ≡ gap (bids_from rates amounts 0 10) }
{
    let mut found = false;
    let mut ended = false;
    for (&rate, &amount) in rates.iter().zip(&amounts) {
        let bid = is_filled(Bid { rate, amount });
        found |= ended & bid;
        ended |= !bid;
    }
    found
}

// How many places are filled.
pub fn count(rates: [Rate; 10], amounts: [Amount; 10]) -> u64
    ensures { result ≡ length (keep filled (bids_from rates amounts 0 10)) }
{
    let mut n = 0;
    for (&rate, &amount) in rates.iter().zip(&amounts) {
        n += u64::from(is_filled(Bid { rate, amount }));
    }
    n
}

// Whether some place has a fault, which is asked of every place.
fn any_place<F: Fn(Bid) -> bool>(rates: [Rate; 10], amounts: [Amount; 10], has_fault: F) -> bool
    requires { F.IsAlwaysCallable has_fault }
    ensures { Asked (F.post has_fault) (bids_from rates amounts 0 10) result }
{
    let mut found = false;
    for (&rate, &amount) in rates.iter().zip(&amounts) {
        found |= has_fault(Bid { rate, amount });
    }
    found
}

// Whether some rate is fine.
pub fn any_fine(rates: [Rate; 10], amounts: [Amount; 10]) -> bool
    ensures { result ≡ any fine_rate (bids_from rates amounts 0 10) }
{
    any_place(rates, amounts, is_fine)
}

// Whether some filled place is small.
pub fn any_small(rates: [Rate; 10], amounts: [Amount; 10], minimum: Amount) -> bool
    ensures { result ≡ any (small_bid minimum.0) (bids_from rates amounts 0 10) }
{
    any_place(rates, amounts, |b| is_small(b, minimum))
}

// Whether some amount is uneven.
pub fn any_uneven(
    rates: [Rate; 10],
    amounts: [Amount; 10],
    minimum: Amount,
    increment: Amount,
) -> bool
    ensures { result ≡ any (uneven_bid minimum.0 increment.0) (bids_from rates amounts 0 10) }
{
    any_place(rates, amounts, |b| is_uneven(b, minimum, increment))
}

// Whether the total is above a told maximum; what is left of it falls to zero, so that no sum can overflow.
pub fn is_over(rates: [Rate; 10], amounts: [Amount; 10], maximum: Amount) -> bool
    ensures { result ≡ over_maximum maximum.0 (bids_from rates amounts 0 10) }
{
    let mut over = false;
    let mut left = maximum.0;
    for amount in &amounts {
        over |= left < amount.0;
        left = left.saturating_sub(amount.0);
    }
    (maximum.0 != 0) & over
}
