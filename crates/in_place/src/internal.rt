// Each call asks for words that hold a tender, and leaves such words.
ghost use Rattle.std.specs.Prelude.{◌≡◌, true, ◌<◌, replicate};
ghost use Rattle.rules.specs.Calls.{close, revoke};
ghost use Rattle.book.specs.Viewed.{hundred_thousandths};
ghost use Rattle.buffer.specs.Words.{low32, tender_in, is_tender};
ghost use Rattle.in_place.specs.InPlace.{ComesIn, LeavesIn, ReceivesIn, ChangesIn, AllotsIn};

use addresses::code_of;
use buffer::internal::terms_in;
use buffer::state_of;
use buffer_allotment::internal::awards_in;
use buffer_search::internal::{find, takes};
use numbers::internal::put_each;
use outcomes::internal::{Outcome, Reply, is_held, judged, receiving_checks};
use places::Rate;
use reception::internal::put_reply;
use refusals::{Refusal, close_refusal, ended_refusal, not_closed};

// What the reception of a message comes to, with so much room for the reply.
pub fn outcome_in(
    words: &[u64],
    m: &[u8],
    date: u64,
    time: u64,
    room: usize,
) -> Result<Outcome, Refusal>
    requires { is_tender words.now ≡ true }
    ensures { ComesIn words.now m.now date time room result }
{
    let fields = receiving_checks(state_of(words[1]), m, date, time, room)?;
    let sender = fields.sender;
    let reference = fields.time;
    let found = find(words, code_of(sender));
    let sent = reference.unwrap_or(0);
    let taken = takes(words, found, sent);
    let terms = terms_in(words);
    Ok(judged(terms, found, taken, m, fields, date, time))
}

// A rate as a word, which holds it whole.
fn word_of(rate: Rate) -> u64
    ensures { (result ≡ hundred_thousandths rate) × (low32 result ≡ result) }
{
    u64::from(rate.0)
}

// Holds what is accepted of a message, or nothing where it was returned.
pub fn leave_in(words: &mut [u64], o: Outcome)
    requires { (is_tender words.old ≡ true) × (o.accepted.at < 64) }
    ensures { LeavesIn words.old o words.new }
{
    if !is_held(o) {
        return;
    }
    let a = o.accepted;
    words[88 + a.at] = a.time;
    words[152 + a.at] = 1;
    put_each(words, 216 + 10 * a.at, &a.rates, word_of);
    put_each(words, 856 + 10 * a.at, &a.amounts, |amount| amount.0);
}

// Receives a message at a date and time and writes the reply to it at the start of the space.
pub fn receive_in(
    words: &mut [u64],
    m: &[u8],
    date: u64,
    time: u64,
    space: &mut [u8],
) -> Result<Reply, Refusal>
    requires { is_tender words.old ≡ true }
    ensures { ReceivesIn words.old m.now date time space.old result words.new space.new }
{
    match outcome_in(words, m, date, time, space.len()) {
        Ok(o) => {
            let errors = o.errors;
            let terms = terms_in(words);
            let length = put_reply(space, m, terms, time, errors);
            leave_in(words, o);
            Ok(Reply { errors, length })
        }
        Err(refusal) => Err(refusal),
    }
}

// Closes the tender at a clock reading past its cut-off.
pub fn close_in(words: &mut [u64], date: u64, time: u64) -> Result<(), Refusal>
    requires { is_tender words.old ≡ true }
    ensures { ChangesIn words.old (close (tender_in words.old) date time) 1 result words.new }
{
    let state = state_of(words[1]);
    let terms = terms_in(words);
    close_refusal(state, terms, date, time)?;
    words[1] = 1;
    Ok(())
}

// Revokes a tender that is not announced yet.
pub fn revoke_in(words: &mut [u64]) -> Result<(), Refusal>
    requires { is_tender words.old ≡ true }
    ensures { ChangesIn words.old (revoke (tender_in words.old)) 3 result words.new }
{
    ended_refusal(state_of(words[1]))?;
    words[1] = 3;
    Ok(())
}

// Allots the offer of a closed tender to the bids in its book, and gives the marginal rate; the awards are zeros before.
pub fn allot_in(words: &mut [u64], awards: &mut [u64]) -> Result<Option<Rate>, Refusal>
    requires { (is_tender words.old ≡ true) × (awards.old ≡ replicate 640 0) }
    ensures { AllotsIn words.old result words.new awards.new }
{
    let state = state_of(words[1]);
    let marginal = awards_in(words, not_closed(state), awards)?;
    words[1] = 2;
    Ok(marginal)
}
