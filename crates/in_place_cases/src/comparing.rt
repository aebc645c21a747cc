// Whether what a call by value gave is what the call in place gave.
ghost use Rattle.std.specs.Prelude.{◌≤◌, length};

use book::Book;
use buffer_opening::internal::put_terms;
use errors::Errors;
use places::{Amount, Rate};
use refusals::State;
use tender::Tender;
use terms::Terms;

// Whether two messages have the same errors.
pub fn same_errors(a: Errors, b: Errors) -> bool {
    (a.n == b.n) & (a.codes == b.codes)
}

// Whether all awards are equal.
pub fn same_awards(a: [Amount; 640], awards: [u64; 640]) -> bool {
    a.iter().zip(&awards).all(|(a, &cents)| a.0 == cents)
}

// One more than a marginal rate, or 0 where there is none.
fn past_rate(m: Option<Rate>) -> u64 {
    match m {
        Some(rate) => rate.0 as u64 + 1,
        None => 0,
    }
}

// Whether two marginal rates are one rate, or both none.
pub fn same_rate(a: Option<Rate>, b: Option<Rate>) -> bool {
    past_rate(a) == past_rate(b)
}

// Whether all words are the same.
pub fn all_same(a: [u64; 1560], b: [u64; 1560]) -> bool {
    a == b
}

// The number of a state in the words.
fn state_number(s: State) -> u64 {
    match s {
        State::Open => 0,
        State::Closed => 1,
        State::Announced => 2,
        State::Revoked => 3,
    }
}

// Whether the words from 3 on are the terms.
fn same_terms(terms: Terms, words: &[u64]) -> bool
    requires { 1560 ≤ length words.now }
{
    let mut numbers = [0u64; 21];
    put_terms(&mut numbers, 0, terms);
    &numbers[..] == &words[3..24]
}

// Whether the words from 24, 88 and 152 on are the codes, the times held and whether they are held.
fn same_codes(b: Book, words: &[u64]) -> bool
    requires { 1560 ≤ length words.now }
{
    let mut same = true;
    for i in 0..64 {
        same &= (u64::from(b.codes[i]) == words[24 + i])
            & (b.held[i] == words[88 + i])
            & (u64::from(b.has[i]) == words[152 + i]);
    }
    same
}

// Whether the words from 216 and 856 on are the rates and the amounts.
fn same_places(b: Book, words: &[u64]) -> bool
    requires { 1560 ≤ length words.now }
{
    let mut same = true;
    for i in 0..640 {
        same &= (u64::from(b.rates[i].0) == words[216 + i]) & (b.amounts[i].0 == words[856 + i]);
    }
    same
}

// Whether the words from 1496 on are the limits.
fn same_limits(b: Book, words: &[u64]) -> bool
    requires { 1560 ≤ length words.now }
{
    &b.limits[..] == &words[1496..1560]
}

// Whether the words are a tender's.
pub fn same_tender(t: Tender, words: [u64; 1560]) -> bool {
    let state = t.state();
    let terms = t.terms();
    let book = t.book();
    (words[0] == 2)
        & (words[1] == state_number(state))
        & (words[2] == book.n as u64)
        & same_terms(terms, &words)
        & same_codes(book, &words)
        & same_places(book, &words)
        & same_limits(book, &words)
}

// Whether two reply spaces are the same.
pub fn same_spaces(a: [u8; 438], b: [u8; 438]) -> bool {
    a == b
}
