// The share division of an allotment: an amount times what is left of the offer, divided by a total,
// one round for each binary digit of the amount.
#![tactic(auto)]

pub mod internal;

ghost use Rattle.std.specs.Prelude.{◌≡◌};
ghost use Rattle.rules.specs.Allotment.{binary_length};

use places::Amount;

// A division after some rounds: quotient, remainder and how many rounds there were.
#[derive(Clone, Copy)]
pub struct Division {
    pub quotient: Amount,
    pub remainder: Amount,
    pub count: u32,
}

// How many binary digits an amount has, by its leading zeros.
pub fn binary_length(a: Amount) -> u32
    ensures { result ≡ binary_length a.0 }
{
    64 - u64::leading_zeros(a.0)
}
