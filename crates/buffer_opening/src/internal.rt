// The words of a tender, written where its announcement and admitted list open it. The functions ask for
// room; a call that a maker makes tests it first.
ghost use Rattle.std.specs.Prelude.{◌≡◌, ◌++◌, map, ◌+◌, ◌-◌, ◌≤◌, length, replicate};
ghost use Rattle.output.specs.Output.{Wrote};
ghost use Rattle.rules.specs.Opening.{admitting};
ghost use Rattle.buffer.specs.Words.{tender_words, byte_in, low32, side_number, terms_numbers};
ghost use Rattle.buffer_opening.specs.Opening.{Narrow, opened_numbers, OpensIn};

use announcement::Side;
use numbers::internal::{put, put_each, put_three};
use terms::{OpenRefusal, Terms, open};

// The number of a side.
fn side_number(side: Side) -> u64
    ensures { result ≡ side_number side }
{
    match side {
        Side::La => 0,
        Side::Lp => 1,
    }
}

// Writes n zeros.
pub fn put_zeros(words: &mut [u64], at: usize, n: usize) -> usize
    requires { at + n ≤ length words.old }
    ensures { Wrote words.old at (replicate n 0) words.new result }
{
    let end = at + n;
    words[at..end].fill(0);
    end
}

// Writes the terms of a tender, which are as narrow as they are read back.
pub fn put_terms(words: &mut [u64], at: usize, terms: Terms) -> usize
    requires { at + 21 ≤ length words.old }
    ensures { Wrote words.old at (terms_numbers terms) words.new result × (result ≡ at + 21) × Narrow terms }
{
    let side_at = put_each(words, at, &terms.identifier, u64::from);
    let dates_at = put(words, side_at, side_number(terms.side));
    let amounts_at = put_three(words, dates_at, terms.execution, terms.cutoff, terms.most);
    let limits_at = put_three(
        words,
        amounts_at,
        terms.offered.0,
        terms.minimum.0,
        terms.increment.0,
    );
    put_three(
        words,
        limits_at,
        terms.maximum.0,
        terms.allocation.0,
        u64::from(terms.limit.0),
    )
}

// Writes limits, and zeros up to 64 of them.
fn put_limits(words: &mut [u64], at: usize, limits: &[u64]) -> usize
    requires { (at + 64 ≤ length words.old) × (length limits.now ≤ 64) }
    ensures { Wrote words.old at (limits.now ++ replicate (64 - length limits.now) 0) words.new result × (result ≡ at + 64) }
{
    let free_at = put_each(words, at, limits, u64::from);
    put_zeros(words, free_at, 64 - limits.len())
}

// Writes the words of a newly opened tender.
fn put_tender(words: &mut [u64], terms: Terms, codes: &[u32], limits: &[u64]) -> usize
    requires { (tender_words ≤ length words.old) × (length codes.now ≤ 64) × (length limits.now ≤ 64) }
    ensures { Wrote words.old 0 (opened_numbers terms (admitting codes.now limits.now)) words.new result × (result ≡ tender_words) × Narrow terms }
{
    let terms_at = put_three(words, 0, 2, 0, codes.len() as u64);
    let codes_at = put_terms(words, terms_at, terms);
    let free_at = put_each(words, codes_at, codes, u64::from);
    let limits_at = put_zeros(words, free_at, 1472 - codes.len());
    put_limits(words, limits_at, limits)
}

// Opens a tender in a buffer: its words, or why it is refused and the words as they were.
pub fn open_in(
    words: &mut [u64],
    m: &[u8],
    codes: &[u32],
    limits: &[u64],
) -> Result<(), OpenRefusal>
    requires { tender_words ≤ length words.old }
    ensures { OpensIn words.old m.now (admitting codes.now limits.now) result words.new }
{
    match open(m, codes, limits) {
        Ok(terms) => {
            put_tender(words, terms, codes, limits);
            Ok(())
        }
        Err(refusal) => Err(refusal),
    }
}
