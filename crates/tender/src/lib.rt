// The calls on a tender: each takes it by value and gives back the next one with the answer.
#![tactic(auto)]

ghost use Rattle.std.specs.Prelude.{◌≡◌, Err};
ghost use Rattle.rules.specs.Opening.{admitting};
ghost use Rattle.rules.specs.Calls.{receive, close, revoke};
ghost use Rattle.checks.specs.Columns.{reception_of};
ghost use Rattle.refusals.specs.Conditions.{state_of, refusal_number};
ghost use Rattle.outcomes.specs.Outcomes.{ComesTo};
ghost use Rattle.tender.specs.Viewed.{viewed, Given, in_state_of};
ghost use Rattle.tender.specs.Calls.{Opens, Receives, Changes, Allots, Previews};
ghost use Rattle.tender.specs.Parts.{changed_unless};

use addresses::code_of;
use book::internal::{find_in, takes_at};
use book::{Book, new_book};
pub use book_allotment::internal::BookAllotment as Awarded;
use book_allotment::internal::allot_book;
pub use outcomes::internal::Reply;
use outcomes::internal::{Outcome, held_in, judged, receiving_checks};
use reception::internal::put_reply;
pub use refusals::{Refusal, State, number_of};
use refusals::{close_refusal, ended_refusal, not_closed};
use terms::{OpenRefusal, Terms, no_terms};

// What was announced and for whom, what is held for each admitted code, and where the tender stands.
#[derive(Clone, Copy)]
pub struct Tender {
    state: State,
    terms: Terms,
    book: Book,
}

// The answer to an opening, and the tender.
#[derive(Clone, Copy)]
pub struct Opened {
    pub answer: Result<(), OpenRefusal>,
    pub tender: Tender,
}

// The answer to a reception, and the tender after it. One that is not refused is confirmed, or returned with its errors.
#[derive(Clone, Copy)]
pub struct Received {
    pub answer: Result<Reply, Refusal>,
    pub tender: Tender,
}

// What closing and revoking give.
#[derive(Clone, Copy)]
pub struct Changed {
    pub answer: Result<(), Refusal>,
    pub tender: Tender,
}

// What allotting and a preview give: the awards of all places in book order and the marginal rate, unless the call is refused.
#[derive(Clone, Copy)]
pub struct Allotted {
    pub answer: Result<Awarded, Refusal>,
    pub tender: Tender,
}

// The tender of an announcement and the codes admitted to it, with a credit limit for each, zero where it has none; a refused opening gives an empty
// tender that is revoked.
pub fn open(m: &[u8], codes: &[u32], limits: &[u64]) -> Opened
    ensures { Opens m.now (admitting codes.now limits.now) result }
{
    match terms::open(m, codes, limits) {
        Ok(terms) => {
            let book = new_book(codes, limits);
            Opened {
                answer: Ok(()),
                tender: Tender {
                    state: State::Open,
                    terms,
                    book,
                },
            }
        }
        Err(refusal) => {
            let terms = no_terms();
            let book = new_book(&codes[0..0], &limits[0..0]);
            Opened {
                answer: Err(refusal),
                tender: Tender {
                    state: State::Revoked,
                    terms,
                    book,
                },
            }
        }
    }
}

// The tender in another state.
fn in_state(t: Tender, state: State) -> Tender
    ensures { result ≡ in_state_of state t }
{
    let terms = t.terms;
    let book = t.book;
    Tender { state, terms, book }
}

// What the reception of a message comes to, with so much room for the reply.
fn outcome_of(t: Tender, m: &[u8], date: u64, time: u64, room: usize) -> Result<Outcome, Refusal>
    requires { Given t }
    ensures { ComesTo (viewed t) m.now date time room result }
{
    let state = t.state;
    let terms = t.terms;
    let book = t.book;
    let fields = receiving_checks(state, m, date, time, room)?;
    let sender = fields.sender;
    let reference = fields.time;
    // Copied by themselves, since a book that lends a part of itself is copied whole.
    let codes = book.codes;
    let held = book.held;
    let has = book.has;
    let found = find_in(&codes, book.n, code_of(sender));
    let sent = reference.unwrap_or(0);
    let taken = takes_at(&held, &has, found, sent);
    Ok(judged(terms, found, taken, m, fields, date, time))
}

// A refused reception: the tender as it was. It stands apart, since with two answers in one function both are cleared for each
// reception, accepted or not.
fn unreceived(t: Tender, refusal: Refusal) -> Received
    ensures { (result.answer ≡ Err refusal) × (result.tender ≡ t) }
{
    Received {
        answer: Err(refusal),
        tender: t,
    }
}

// The tender in another state, unless the call is refused.
fn in_state_unless(t: Tender, answer: Result<(), Refusal>, state: State) -> Changed
    requires { Given t }
    ensures { (result.answer ≡ answer) × Changes t (changed_unless (refusal_number answer) (state_of state) (viewed t)) result }
{
    match answer {
        Ok(()) => Changed {
            answer: Ok(()),
            tender: in_state(t, state),
        },
        Err(refusal) => Changed {
            answer: Err(refusal),
            tender: t,
        },
    }
}

impl Tender {
    // Where the tender stands.
    pub fn state(self) -> State
        ensures { result ≡ self.state }
    {
        self.state
    }

    // What was announced.
    pub fn terms(self) -> Terms
        ensures { result ≡ self.terms }
    {
        self.terms
    }

    // What is held for each admitted code.
    pub fn book(self) -> Book
        ensures { result ≡ self.book }
    {
        self.book
    }

    // Receives a message at a date and time and writes the reply to it at the start of the space.
    pub fn receive(self, m: &[u8], date: u64, time: u64, space: &mut [u8]) -> Received
        requires { Given self }
        ensures { Receives self (receive (viewed self) (reception_of m.now date time space.old)) result space.new }
    {
        let o = match outcome_of(self, m, date, time, space.len()) {
            Ok(o) => o,
            Err(refusal) => return unreceived(self, refusal),
        };
        let errors = o.errors;
        let state = self.state;
        let terms = self.terms;
        let book = self.book;
        let length = put_reply(space, m, terms, time, errors);
        let next = held_in(book, o);
        Received {
            answer: Ok(Reply { errors, length }),
            tender: Tender {
                state,
                terms,
                book: next,
            },
        }
    }

    // Closes the tender at a clock reading past its cut-off.
    pub fn close(self, date: u64, time: u64) -> Changed
        requires { Given self }
        ensures { Changes self (close (viewed self) date time) result }
    {
        let state = self.state;
        let terms = self.terms;
        let answer = close_refusal(state, terms, date, time);
        in_state_unless(self, answer, State::Closed)
    }

    // Allots the offer of a closed tender to the bids in its book.
    pub fn allot(self) -> Allotted
        requires { Given self }
        ensures { Allots self result }
    {
        let state = self.state;
        let terms = self.terms;
        let book = self.book;
        match allot_book(not_closed(state), terms, book) {
            Ok(allotment) => Allotted {
                answer: Ok(allotment),
                tender: in_state(self, State::Announced),
            },
            Err(refusal) => Allotted {
                answer: Err(refusal),
                tender: self,
            },
        }
    }

    // What closing and allotting would give, or allotting where the tender is closed already. It needs no clock, and the tender stays as it is.
    pub fn preview(self) -> Allotted
        requires { Given self }
        ensures { Previews self result }
    {
        let state = self.state;
        let terms = self.terms;
        let book = self.book;
        match allot_book(ended_refusal(state), terms, book) {
            Ok(previewed) => Allotted {
                answer: Ok(previewed),
                tender: self,
            },
            Err(refusal) => Allotted {
                answer: Err(refusal),
                tender: self,
            },
        }
    }

    // Revokes a tender that is not announced yet.
    pub fn revoke(self) -> Changed
        requires { Given self }
        ensures { Changes self (revoke (viewed self)) result }
    {
        let state = self.state;
        let answer = ended_refusal(state);
        in_state_unless(self, answer, State::Revoked)
    }
}
