// Which applications are written, and what a refused writing leaves.
use crate::message;
use addresses::Address;
use envelope::application::{Application, write};
use places::{Amount, Rate};
use std::io;

// The least number that is too wide: of the six fields, of a rate and of an amount.
const LIMITS: [u64; 8] = [
    100000,
    100000,
    100000000000,
    100000000,
    1000000,
    100000,
    100000000,
    1000000000000000,
];

// The application with another number in digit field k.
fn with_field(k: usize, n: u64) -> Application {
    let mut a = message::application();
    if k == 0 {
        return message::between(Address::Code(n), Address::Code(1000));
    } else if k == 1 {
        return message::between(Address::Code(90002), Address::Code(n));
    } else if k == 2 {
        a.cro = n;
    } else if k == 3 {
        a.date = n;
    } else if k == 4 {
        a.time = n;
    } else {
        a.check = n;
    }
    a
}

// The application with another rate at place k.
fn with_rate(k: usize, n: u64) -> Application {
    let mut a = message::application();
    if k < 10 {
        a.rates[k] = Rate((n % 4294967296) as u32);
    }
    a
}

// The application with another amount at place k.
fn with_amount(k: usize, n: u64) -> Application {
    let mut a = message::application();
    if k < 10 {
        a.amounts[k] = Amount(n);
    }
    a
}

// The application with another number: 0 to 5 a field, 6 to 15 a rate, 16 to 25 an amount.
fn changed(k: usize, n: u64) -> Application {
    if k < 6 {
        with_field(k, n)
    } else if k < 16 {
        with_rate(k - 6, n)
    } else {
        with_amount(k - 16, n)
    }
}

fn limit(k: usize) -> u64 {
    let limits = LIMITS;
    if k < 6 {
        limits[k]
    } else if k < 16 {
        limits[6]
    } else {
        limits[7]
    }
}

// The refusal of an application with these texts, written into a space of 339 bytes.
fn refusal(a: Application, kind: &[u8], identifier: &[u8], name: &[u8]) -> u64 {
    let mut space = [170u8; 339];
    message::refused(write(a, kind, identifier, name, &mut space))
}

// The refusal of an application with the texts of the message.
fn number_refusal(a: Application) -> u64 {
    refusal(a, b"6G1", b"T/2012/0001", b"CONTACT \x00 \xff end")
}

// Number k at its widest and one wider.
fn number(rt: &impl Print, k: usize) -> io::Result<()> {
    let n = limit(k);
    printing::text(rt, b"number")?;
    printing::number(rt, k as u64)?;
    if 0 < n {
        printing::number(rt, number_refusal(changed(k, n - 1)))?;
    }
    printing::number(rt, number_refusal(changed(k, n)))?;
    printing::end(rt)
}

// Each number at its widest and one wider.
pub fn numbers(rt: &impl Print) -> io::Result<()> {
    for k in 0..26 {
        number(rt, k)?;
    }
    Ok(())
}

// The refusal of the message with these texts.
fn written_with(rt: &impl Print, kind: &[u8], identifier: &[u8], name: &[u8]) -> io::Result<()> {
    printing::number(rt, refusal(message::application(), kind, identifier, name))
}

// The refusal of the message with another type.
fn with_kind(rt: &impl Print, kind: &[u8]) -> io::Result<()> {
    written_with(rt, kind, b"T/2012/0001", b"CONTACT \x00 \xff end")
}

// The refusal of the message with another identifier.
fn with_identifier(rt: &impl Print, identifier: &[u8]) -> io::Result<()> {
    written_with(rt, b"6G1", identifier, b"CONTACT \x00 \xff end")
}

// The refusal of the message with another name.
fn with_name(rt: &impl Print, name: &[u8]) -> io::Result<()> {
    written_with(rt, b"6G1", b"T/2012/0001", name)
}

// Each text one short and one long.
pub fn texts(rt: &impl Print) -> io::Result<()> {
    printing::text(rt, b"texts")?;
    with_kind(rt, b"6G")?;
    with_kind(rt, b"6G1 ")?;
    with_identifier(rt, b"T/2012/001")?;
    with_identifier(rt, b"T/2012/00001")?;
    with_name(rt, b"CONTACT \x00 \xff en")?;
    with_name(rt, b"CONTACT \x00 \xff end ")?;
    printing::end(rt)
}

// Malformed identifiers, and a well formed one.
pub fn identifiers(rt: &impl Print) -> io::Result<()> {
    printing::text(rt, b"identifiers")?;
    with_identifier(rt, b"t/2012/0001")?;
    with_identifier(rt, b"T-2012/0001")?;
    with_identifier(rt, b"T/ 012/0001")?;
    with_identifier(rt, b"T/2012 0001")?;
    with_identifier(rt, b"T/2012/000:")?;
    with_identifier(rt, b"T/0000/9999")?;
    printing::end(rt)
}

// Any three bytes for a type.
pub fn kinds(rt: &impl Print) -> io::Result<()> {
    printing::text(rt, b"type")?;
    with_kind(rt, b"\x00\xff ")?;
    printing::end(rt)
}

// The refusal of the message with another type, written into a space.
fn write_into(space: &mut [u8], kind: &[u8]) -> u64 {
    let answer = write(
        message::application(),
        kind,
        b"T/2012/0001",
        b"CONTACT \x00 \xff end",
        space,
    );
    message::refused(answer)
}

// What a writing left: its refusal, whether the message stands in the space, and how many bytes
// hold the pattern still.
fn outcome(rt: &impl Print, n: usize, refusal: u64, space: [u8; 341]) -> io::Result<()> {
    printing::text(rt, b"space")?;
    printing::number(rt, n as u64)?;
    printing::number(rt, refusal)?;
    printing::yes(rt, space.starts_with(&message::bytes()))?;
    printing::number(rt, unchanged(&space))?;
    printing::end(rt)
}

// Writes into the first n bytes of a space of 341 that holds a pattern.
fn space_of(rt: &impl Print, n: usize, kind: &[u8]) -> io::Result<()> {
    let mut space = [170u8; 341];
    if n <= 341 {
        let refusal = write_into(&mut space[..n], kind);
        outcome(rt, n, refusal, space)?;
    }
    Ok(())
}

// How many bytes of a space hold the pattern.
fn unchanged(space: &[u8]) -> u64 {
    space.iter().filter(|&&b| b == 170).count() as u64
}

// 338, 339 and 340 bytes of space, then 0; a short type with room and without.
pub fn spaces(rt: &impl Print) -> io::Result<()> {
    space_of(rt, 338, b"6G1")?;
    space_of(rt, 339, b"6G1")?;
    space_of(rt, 340, b"6G1")?;
    space_of(rt, 0, b"6G1")?;
    space_of(rt, 340, b"6G")?;
    space_of(rt, 338, b"6G")
}
