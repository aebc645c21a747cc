// Where a tender stands, and why a call on it is refused.
#![tactic(auto)]

ghost use Rattle.std.specs.Prelude.{◌≡◌, [], ◌∷◌};
ghost use Rattle.envelope.specs.Refusals.{first_holding};
ghost use Rattle.rules.specs.Calls.{clock_invalid};
ghost use Rattle.refusals.specs.Conditions.{state_of, number_of, refusal_number, not_open, not_closed, ended, RefusesClosing};

use calendar::{moment_later, valid_date, valid_time};
use envelope::application::Unreadable;
use terms::Terms;

#[derive(Clone, Copy)]
pub enum State {
    Open,
    Closed,
    Announced,
    Revoked,
}

// Why a call is refused.
#[derive(Clone, Copy, Debug, PartialEq, Eq)]
pub enum Refusal {
    Revoked,
    Over,
    ClockInvalid,
    SpaceShort,
    Unreadable,
    BeforeCutOff,
    Open,
    Announced,
    BidsExceed,
}

impl From<Unreadable> for Refusal {
    ghost use Rattle.std.specs.Prelude.{◌≡◌};
    ghost use Rattle.refusals.specs.declared.Refusal.TheVariants as refusal;

    ghost from_gives = { λ _ r. r ≡ refusal.Unreadable };

    fn from(_unreadable: Unreadable) -> Refusal {
        Refusal::Unreadable
    }
}

// Document 01's number of a refusal.
pub fn number_of(r: Refusal) -> u64
    ensures { result ≡ number_of r }
{
    match r {
        Refusal::Revoked => 8,
        Refusal::Over => 9,
        Refusal::ClockInvalid => 10,
        Refusal::SpaceShort => 11,
        Refusal::Unreadable => 12,
        Refusal::BeforeCutOff => 13,
        Refusal::Open => 14,
        Refusal::Announced => 15,
        Refusal::BidsExceed => 16,
    }
}

// Refuses by condition 10.
fn clock_refusal(date: u64, time: u64) -> Result<(), Refusal>
    ensures { refusal_number result ≡ first_holding ((10, clock_invalid date time) ∷ []) }
{
    if valid_date(date) & valid_time(time) {
        return Ok(());
    }
    Err(Refusal::ClockInvalid)
}

// Refuses by conditions 8, 9 and 10.
pub fn not_open(state: State, date: u64, time: u64) -> Result<(), Refusal>
    ensures { refusal_number result ≡ not_open (state_of state) date time }
{
    match state {
        State::Open => clock_refusal(date, time),
        State::Closed => Err(Refusal::Over),
        State::Announced => Err(Refusal::Over),
        State::Revoked => Err(Refusal::Revoked),
    }
}

// Refuses by conditions 8, 14 and 15.
pub fn not_closed(state: State) -> Result<(), Refusal>
    ensures { refusal_number result ≡ not_closed (state_of state) }
{
    match state {
        State::Open => Err(Refusal::Open),
        State::Closed => Ok(()),
        State::Announced => Err(Refusal::Announced),
        State::Revoked => Err(Refusal::Revoked),
    }
}

// Refuses by conditions 8 and 15.
pub fn ended_refusal(state: State) -> Result<(), Refusal>
    ensures { refusal_number result ≡ ended (state_of state) }
{
    match state {
        State::Open => Ok(()),
        State::Closed => Ok(()),
        State::Announced => Err(Refusal::Announced),
        State::Revoked => Err(Refusal::Revoked),
    }
}

// Refuses closing: conditions 8, 9, 10 and 13.
pub fn close_refusal(state: State, terms: Terms, date: u64, time: u64) -> Result<(), Refusal>
    ensures { RefusesClosing state terms date time result }
{
    not_open(state, date, time)?;
    if moment_later(date, time, terms.execution, terms.cutoff) {
        return Ok(());
    }
    Err(Refusal::BeforeCutOff)
}
