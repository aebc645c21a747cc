// Lines written into a lent space from an index on.
ghost use Rattle.std.specs.Prelude.{◌≡◌, map, ◌+◌, ◌*◌, ◌≤◌, length};
ghost use Rattle.output.specs.Output.{Wrote};
ghost use Rattle.log_rules.specs.Lines.{award_line};
ghost use Rattle.buffer.specs.Words.{low32};
ghost use Rattle.award_lines.specs.Places.{award_start, line_if_any, WritesAwards};

use buffer::narrow;
use output::internal::{put, put_byte};
use places::{Amount, Rate};
use words::internal::put_digits;

// Writes code and place of an award. Of a code the last five digits count, and a number that is known to be small is divided faster.
fn put_place(space: &mut [u8], at: usize, code: u64, place: u64) -> usize
    requires { at + 10 ≤ length space.old }
    ensures { Wrote space.old at (award_start code place) space.new result × (result ≡ at + 10) }
{
    let number = put(space, at, b"W ");
    let blank = put_digits(space, number, 5, code % 100000);
    let second = put_byte(space, blank, b' ');
    put_digits(space, second, 2, place)
}

// Writes the line of an award.
fn put_award(space: &mut [u8], at: usize, code: u64, place: u64, rate: Rate, award: Amount) -> usize
    requires { at + 36 ≤ length space.old }
    ensures { Wrote space.old at (award_line code place rate.0 award.0) space.new result × (result ≡ at + 36) }
{
    let first = put_place(space, at, code, place);
    let number = put_byte(space, first, b' ');
    let second = put_digits(space, number, 8, rate.0 as u64);
    let cents = put_byte(space, second, b' ');
    let end = put_digits(space, cents, 15, award.0);
    put_byte(space, end, b'\n')
}

// Writes the line of an award above zero, and nothing for another.
fn put_if_any(
    space: &mut [u8],
    at: usize,
    code: u64,
    place: u64,
    rate: Rate,
    award: Amount,
) -> usize
    requires { at + 36 ≤ length space.old }
    ensures { Wrote space.old at (line_if_any code place rate.0 award.0) space.new result × (result ≤ at + 36) }
{
    if 0 < award.0 {
        return put_award(space, at, code, place, rate, award);
    }
    at
}

// Writes the lines of all awards above zero, in book order, at the start of the space; codes and rates are words of a tender.
pub fn put_awards(space: &mut [u8], codes: &[u64], rates: &[u64], awards: &[u64]) -> usize
    requires rates_len { length rates.now ≡ 10 * length codes.now }
    requires awards_len { length awards.now ≡ 10 * length codes.now }
    requires awards_in_bounds { 36 * length awards.now ≤ length space.old }
    ensures { WritesAwards codes.now (map low32 rates.now) awards.now space.old space.new result }
{
    let mut at = 0;
    for (i, &cents) in awards.iter().enumerate() {
        let code = codes[i / 10];
        let rate = Rate(narrow(rates[i]));
        let award = Amount(cents);
        at = put_if_any(space, at, code, (i % 10 + 1) as u64, rate, award);
    }
    at
}
