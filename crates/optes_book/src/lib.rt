// The tender book for a host in C: the calls on a tender in words that the host lends. Each tests the words first of all, so that it asks nothing of
// the host but what its pointers say.
#![tactic(auto)]

ghost use Rattle.std.specs.Prelude.{◌≡◌, ◌≤◌};
ghost use Rattle.rules.specs.Opening.{admitting};
ghost use Rattle.rules.specs.Calls.{close, revoke};
ghost use Rattle.errors.specs.Listed.{listed};
ghost use Rattle.marginal.specs.Ranks.{rate_in};
ghost use Rattle.numbers.specs.Numbers.{in_array};
ghost use Rattle.refusals.specs.Conditions.{state_of, refusal_number};
ghost use Rattle.buffer.specs.Words.{tender_in};
ghost use Rattle.buffer_allotment.specs.Allotted.{allotted_in};
ghost use Rattle.optes_book.specs.Interface.{state_number, answer_numbers, marginal_numbers, Opens, Receives, Changes, Allots, Previews, TellsState, TellsTerms, TellsCodes, TellsLimits, TellsHeld};
ghost use Rattle.optes_book.specs.Parts.{TellsAllotment};

use buffer::state_of;
use buffer_allotment::internal::preview_in;
use buffer_opening::internal::open_in;
use buffer_questions::internal::{tell_codes, tell_held, tell_limits, tell_terms};
use buffer_questions::is_tender;
use errors::Errors;
use in_place::internal::{allot_in, close_in, receive_in, revoke_in};
use numbers::internal::{put, put_each, put_first};
use places::Rate;
use refusals::{Refusal, State, number_of};

// Opens a tender in the words.
#[unsafe(no_mangle)]
pub extern "C" fn optes_words_open(
    words: &mut [u64],
    m: &[u8],
    codes: &[u32],
    limits: &[u64],
) -> u64
    ensures { Opens words.old m.now (admitting codes.now limits.now) result words.new }
{
    if words.len() < 1560 {
        return 100;
    }
    match open_in(words, m, codes, limits) {
        Ok(()) => 0,
        Err(refusal) => terms::number_of(refusal),
    }
}

// Tells the length of the reply and the errors.
fn tell_answer(told: &mut [u64], length: usize, e: Errors)
    requires { e.n ≤ 16 }
    ensures { told.new ≡ in_array (answer_numbers length (listed e)) told.old }
{
    let mut all = [0u64; 18];
    let count_at = put(&mut all, 0, length as u64);
    let codes_at = put(&mut all, count_at, e.n as u64);
    put_each(&mut all, codes_at, e.as_slice(), u64::from);
    put_first(told, &all);
}

// Receives a message and writes the reply to it; tells the length of the reply and the errors.
#[unsafe(no_mangle)]
pub extern "C" fn optes_words_receive(
    words: &mut [u64],
    m: &[u8],
    date: u64,
    time: u64,
    space: &mut [u8],
    told: &mut [u64],
) -> u64
    ensures { Receives words.old m.now date time space.old told.old result words.new space.new told.new }
{
    if !is_tender(words) {
        return 100;
    }
    match receive_in(words, m, date, time, space) {
        Ok(reply) => {
            let errors = reply.errors;
            tell_answer(told, reply.length, errors);
            0
        }
        Err(refusal) => number_of(refusal),
    }
}

// Closes the tender.
#[unsafe(no_mangle)]
pub extern "C" fn optes_words_close(words: &mut [u64], date: u64, time: u64) -> u64
    ensures { Changes words.old (close (tender_in words.old) date time) 1 result words.new }
{
    if !is_tender(words) {
        return 100;
    }
    match close_in(words, date, time) {
        Ok(()) => 0,
        Err(refusal) => number_of(refusal),
    }
}

// Tells the marginal rate, or that there is none.
fn tell_marginal(told: &mut [u64], marginal: Option<Rate>)
    ensures { told.new ≡ in_array (marginal_numbers (rate_in marginal)) told.old }
{
    match marginal {
        Some(rate) => put_first(told, &[1, rate.0 as u64]),
        None => put_first(told, &[0, 0]),
    }
}

// Tells what an allotment came to, with its awards: the number of its refusal alone, or the awards and the marginal rate.
fn tell_allotment(
    answer: Result<Option<Rate>, Refusal>,
    cents: &[u64],
    awards: &mut [u64],
    told: &mut [u64],
) -> u64
    ensures { TellsAllotment (refusal_number answer) (allotted_in answer cents.now) awards.old told.old result awards.new told.new }
{
    match answer {
        Ok(marginal) => {
            put_first(awards, cents);
            tell_marginal(told, marginal);
            0
        }
        Err(refusal) => number_of(refusal),
    }
}

// Allots; tells the awards of 640 places and the marginal rate.
#[unsafe(no_mangle)]
pub extern "C" fn optes_words_allot(words: &mut [u64], awards: &mut [u64], told: &mut [u64]) -> u64
    ensures { Allots words.old awards.old told.old result words.new awards.new told.new }
{
    if !is_tender(words) {
        return 100;
    }
    let mut cents = [0u64; 640];
    let answer = allot_in(words, &mut cents);
    tell_allotment(answer, &cents, awards, told)
}

// Previews; tells the same as allotting.
#[unsafe(no_mangle)]
pub extern "C" fn optes_words_preview(words: &[u64], awards: &mut [u64], told: &mut [u64]) -> u64
    ensures { Previews words.now awards.old told.old result awards.new told.new }
{
    if !is_tender(words) {
        return 100;
    }
    let mut cents = [0u64; 640];
    let answer = preview_in(words, &mut cents);
    tell_allotment(answer, &cents, awards, told)
}

// Revokes the tender.
#[unsafe(no_mangle)]
pub extern "C" fn optes_words_revoke(words: &mut [u64]) -> u64
    ensures { Changes words.old (revoke (tender_in words.old)) 3 result words.new }
{
    if !is_tender(words) {
        return 100;
    }
    match revoke_in(words) {
        Ok(()) => 0,
        Err(refusal) => number_of(refusal),
    }
}

// The number of a state.
fn state_number(s: State) -> u64
    ensures { result ≡ state_number (state_of s) }
{
    match s {
        State::Open => 0,
        State::Closed => 1,
        State::Announced => 2,
        State::Revoked => 3,
    }
}

// Where the tender stands.
#[unsafe(no_mangle)]
pub extern "C" fn optes_words_state(words: &[u64]) -> u64
    ensures { TellsState words.now result }
{
    if !is_tender(words) {
        return 100;
    }
    let state = state_of(words[1]);
    state_number(state)
}

// What was announced.
#[unsafe(no_mangle)]
pub extern "C" fn optes_words_terms(words: &[u64], told: &mut [u64]) -> u64
    ensures { TellsTerms words.now told.old result told.new }
{
    if !is_tender(words) {
        return 100;
    }
    tell_terms(words, told);
    0
}

// Who is admitted.
#[unsafe(no_mangle)]
pub extern "C" fn optes_words_codes(words: &[u64], told: &mut [u64]) -> u64
    ensures { TellsCodes words.now told.old result told.new }
{
    if !is_tender(words) {
        return 100;
    }
    tell_codes(words, told);
    0
}

// Up to which limits they are admitted.
#[unsafe(no_mangle)]
pub extern "C" fn optes_words_limits(words: &[u64], told: &mut [u64]) -> u64
    ensures { TellsLimits words.now told.old result told.new }
{
    if !is_tender(words) {
        return 100;
    }
    tell_limits(words, told);
    0
}

// What is held for a code.
#[unsafe(no_mangle)]
pub extern "C" fn optes_words_held(words: &[u64], code: u64, told: &mut [u64]) -> u64
    ensures { TellsHeld words.now code told.old result told.new }
{
    if !is_tender(words) {
        return 100;
    }
    tell_held(words, code, told);
    0
}
