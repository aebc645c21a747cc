// Which digit fields and places have numbers.
ghost use Rattle.std.specs.Prelude.{◌≤◌};

use crate::message;
use envelope::application::{Fields, no_fields, read};
use places::{Amount, Rate};
use std::io;

// A digit field: the index of its first byte, and that of its last.
const FIRST: [usize; 6] = [9, 17, 25, 39, 50, 59];

const LAST: [usize; 6] = [13, 21, 35, 46, 55, 63];

// Blank, a digit with its high bit set, NUL, slash and colon.
const OTHER: [u8; 5] = [32, 178, 0, 47, 58];

// Digit field k of those that were read.
fn field(f: Fields, k: usize) -> Option<u64> {
    match k {
        0 => {
            let sender = f.sender;
            message::code(sender)
        }
        1 => {
            let recipient = f.recipient;
            message::code(recipient)
        }
        2 => f.cro,
        3 => f.date,
        4 => f.time,
        _ => f.check,
    }
}

// 1 where there is a number, 0 where there is none.
fn has_number(d: Option<u64>) -> u64
    ensures { result ≤ 1 }
{
    match d {
        Some(_) => 1,
        None => 0,
    }
}

// How many of the digit fields have a number.
fn known(f: Fields) -> u64 {
    has_number(field(f, 0))
        + has_number(field(f, 1))
        + has_number(field(f, 2))
        + has_number(field(f, 3))
        + has_number(field(f, 4))
        + has_number(field(f, 5))
}

// What field k reads as with another byte at an index, and how many of the six have a number.
fn altered(rt: &impl Print, k: usize, at: usize, b: u8) -> io::Result<()> {
    let m = message::with(at, b);
    let f = read(&m).unwrap_or(no_fields());
    printing::digits(rt, field(f, k))?;
    printing::number(rt, known(f))
}

// Digit field k with another byte, at its first and at its last position.
fn digit_field(rt: &impl Print, k: usize, first: usize, last: usize, b: u8) -> io::Result<()> {
    printing::text(rt, b"digit field")?;
    printing::number(rt, k as u64)?;
    printing::number(rt, b as u64)?;
    altered(rt, k, first, b)?;
    altered(rt, k, last, b)?;
    printing::end(rt)
}

// Each digit field with each byte that is no digit.
pub fn fields(rt: &impl Print) -> io::Result<()> {
    let first = FIRST;
    let last = LAST;
    let other = OTHER;
    for k in 0..30usize {
        let i = k / 5;
        digit_field(rt, i, first[i], last[i], other[k % 5])?;
    }
    Ok(())
}

// The numbers of one place, where it is well formed.
fn numbers_of(rt: &impl Print, formed: bool, rate: Rate, amount: Amount) -> io::Result<()> {
    if formed {
        printing::number(rt, rate.0 as u64)?;
        printing::text(rt, b"/")?;
        printing::number(rt, amount.0)
    } else {
        printing::text(rt, b" none")
    }
}

// The ten places with another byte at an index: well formed or not, each by itself.
fn place(rt: &impl Print, at: usize, b: u8) -> io::Result<()> {
    let m = message::with(at, b);
    let p = read(&m).unwrap_or(no_fields()).places;
    for k in 0..10 {
        numbers_of(rt, p.formed[k], p.rates[k], p.amounts[k])?;
    }
    printing::end(rt)
}

// The places as they are; one with a blank for its slash, one with a blank in its rate, one with a
// colon at the end of its amount, and one whose slash stands for a digit.
pub fn places(rt: &impl Print) -> io::Result<()> {
    place(rt, 81, 48)?;
    place(rt, 81 + 24 * 3 + 8, 32)?;
    place(rt, 81, 32)?;
    place(rt, 320, 58)?;
    place(rt, 81 + 24 * 9 + 9, 47)
}
