// What a reception and an allotment come to on a tender that comes in its parts, so that whoever changes its book in place makes no copy.
ghost use Rattle.std.specs.Prelude.{◌≡◌, true, false, ◌&&◌, ◌*◌, ◌≤◌, ◌<◌, length};
ghost use Rattle.calendar.specs.Calendar.{valid_date, valid_time};
ghost use Rattle.layout.specs.Fields.{readable};
ghost use Rattle.envelope.specs.Application.{layout6_g1, fields_of};
ghost use Rattle.book.specs.Viewed.{viewed, limits_in};
ghost use Rattle.refusals.specs.Conditions.{state_of, refusal_number};
ghost use Rattle.outcomes.specs.Outcomes.{not_receiving, Checks, is_held, entries_after, LeavesInAny};
ghost use Rattle.outcomes.specs.Allotting.{AllotsAny};

use allotment::internal::allot;
use bids::BidColumns;
use book::Book;
use book::internal::hold;
use envelope::application::{Fields, read};
use errors::Errors;
use offer::Offer;
use places::{Amount, Rate};
use reception::internal::returned_errors;
use refusals::{Refusal, State, not_open};
use terms::Terms;

// What is accepted of a message: where its code stands, its reference time and its ten places.
#[derive(Clone, Copy)]
pub struct Accepted {
    pub at: usize,
    pub time: u64,
    pub rates: [Rate; 10],
    pub amounts: [Amount; 10],
}

// What a reception comes to that is not refused: its errors, else what is accepted.
#[derive(Clone, Copy)]
pub struct Outcome {
    pub errors: Errors,
    pub accepted: Accepted,
}

// What a reception tells that is not refused: the errors with which the message is returned, none where it is confirmed, and the length of the reply.
#[derive(Clone, Copy)]
pub struct Reply {
    pub errors: Errors,
    pub length: usize,
}

// Whether a reception leaves something to hold.
pub fn is_held(o: Outcome) -> bool
    ensures { result ≡ is_held o }
{
    let errors = o.errors;
    errors.n == 0
}

// Refuses by conditions 8 to 11, with so much room for the reply.
fn not_receiving(state: State, date: u64, time: u64, room: usize) -> Result<(), Refusal>
    ensures { refusal_number result ≡ not_receiving (state_of state) date time room }
{
    not_open(state, date, time)?;
    if room < 436 {
        return Err(Refusal::SpaceShort);
    }
    Ok(())
}

// The fields of a message, unless one of conditions 8 to 12 refuses it, with so much room for the reply.
pub fn receiving_checks(
    state: State,
    m: &[u8],
    date: u64,
    time: u64,
    room: usize,
) -> Result<Fields, Refusal>
    ensures { Checks state m.now date time room result }
{
    not_receiving(state, date, time, room)?;
    Ok(read(m)?)
}

// What the reception of a message with the fields f comes to that no condition refuses; found and taken say where its code stands in a book, and
// whether the book takes its time.
pub fn judged(
    terms: Terms,
    found: Option<usize>,
    taken: bool,
    m: &[u8],
    f: Fields,
    date: u64,
    time: u64,
) -> Outcome
    requires m_value { readable layout6_g1 m.now ≡ true }
    requires f_value { f ≡ fields_of m.now }
    requires time_value { (valid_date date && valid_time time) ≡ true }
    ensures { LeavesInAny terms found taken m.now f date time result }
{
    let errors = returned_errors(m, f, terms, found, taken, date, time);
    let reference = f.time;
    let places = f.places;
    let rates = places.rates;
    let amounts = places.amounts;
    let accepted = Accepted {
        at: found.unwrap_or(0),
        time: reference.unwrap_or(0),
        rates,
        amounts,
    };
    Outcome { errors, accepted }
}

// Allots to the bids of a book, given in book order, with the limits of its codes, and writes their awards, unless a call's first conditions or
// condition 16 refuse; refused, it writes nothing. It gives the marginal rate.
pub fn allot_bids(
    first: Result<(), Refusal>,
    terms: Terms,
    limits: &[u64],
    rates: &[u32],
    amounts: &[u64],
    awards: &mut [u64],
) -> Result<Option<Rate>, Refusal>
    requires rates_len { (length rates.now ≡ length amounts.now) × (length awards.old ≡ length amounts.now) × (length amounts.now ≤ 640) }
    requires limits_value { 10 * length limits.now ≡ length amounts.now }
    ensures { AllotsAny first terms limits.now rates.now amounts.now awards.old result awards.new }
{
    first?;
    let side = terms.side;
    let limit = terms.limit;
    let offered = terms.offered;
    let o = Offer {
        side,
        limit,
        offered,
    };
    match allot(o, limits, BidColumns { rates, amounts }, awards) {
        Ok(marginal) => Ok(marginal),
        Err(_) => Err(Refusal::BidsExceed),
    }
}

// The book after a reception.
pub fn held_in(b: Book, o: Outcome) -> Book
    requires { o.accepted.at < 64 }
    ensures { (viewed result ≡ entries_after (viewed b) o) × (limits_in result ≡ limits_in b) × (is_held o ≡ false → result ≡ b) }
{
    if is_held(o) {
        let a = o.accepted;
        let rates = a.rates;
        let amounts = a.amounts;
        return hold(b, a.at, a.time, rates, amounts);
    }
    b
}
