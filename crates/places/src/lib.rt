// Rates and amounts, and the places of a 6G1's bids that hold them.
#![tactic(auto)]

pub mod internal;

ghost use Rattle.std.specs.Prelude.{◌≡◌};
ghost use Rattle.places.specs.Bids.{places_fit};

// A rate in hundred-thousandths of a percent.
#[derive(Clone, Copy)]
pub struct Rate(pub u32);

// An amount in eurocents.
#[derive(Clone, Copy)]
pub struct Amount(pub u64);

// A place: whether it is well formed, and its numbers, which are zeros where it is not.
#[derive(Clone, Copy)]
pub struct Place {
    pub formed: bool,
    pub rate: Rate,
    pub amount: Amount,
}

// Ten places.
#[derive(Clone, Copy)]
pub struct Places {
    pub formed: [bool; 10],
    pub rates: [Rate; 10],
    pub amounts: [Amount; 10],
}

// Whether each rate and each amount fits the width that a place has for it.
pub fn places_fit(rates: [Rate; 10], amounts: [Amount; 10]) -> bool
    ensures { result ≡ places_fit rates amounts }
{
    let mut ok = true;
    for k in 0..10 {
        ok &= (rates[k].0 < 100000000) & (amounts[k].0 < 1000000000000000);
    }
    ok
}
