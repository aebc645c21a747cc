// A tender in a buffer of 64-bit words that its caller lends: what its words stand for.
#![tactic(auto)]

pub mod internal;

ghost use Rattle.std.specs.Prelude.{◌≡◌};
ghost use Rattle.buffer.specs.Words.{low32, state_in};

use refusals::State;

// The state of a number; no `From`, since a trait's impl stands where the trait or the type does.
#[tactic(auto, unfolding(crate::specs::Words::state_in))]
pub fn state_of(w: u64) -> State
    ensures { result ≡ state_in w }
{
    match w {
        0 => State::Open,
        1 => State::Closed,
        2 => State::Announced,
        _ => State::Revoked,
    }
}

// The last 32 bits of a number, which is how a rate is stored; a cast that may lose bits is refused.
pub fn narrow(w: u64) -> u32
    ensures { result ≡ low32 w }
{
    (w % 4294967296) as u32
}
