// What is readable as a 6G1 and what is not.
ghost use Rattle.std.specs.Prelude.{◌<◌};

use crate::message;
use envelope::application::{Field, bytes, no_fields, read};
use std::io;

// The refusal of a message and its digit fields.
fn numbers(rt: &impl Print, name: &[u8], m: &[u8]) -> io::Result<()> {
    let f = read(m).unwrap_or(no_fields());
    let sender = f.sender;
    let recipient = f.recipient;
    let cro = f.cro;
    let date = f.date;
    let time = f.time;
    let check = f.check;
    printing::text(rt, name)?;
    printing::number(rt, message::refusal(m))?;
    printing::digits(rt, message::code(sender))?;
    printing::digits(rt, message::code(recipient))?;
    printing::digits(rt, cro)?;
    printing::digits(rt, date)?;
    printing::digits(rt, time)?;
    printing::digits(rt, check)?;
    printing::end(rt)
}

// The bytes of a message's texts.
fn texts(rt: &impl Print, m: &[u8]) -> io::Result<()> {
    printing::text(rt, bytes(m, Field::MessageType))?;
    printing::text(rt, bytes(m, Field::Identifier))?;
    printing::text(rt, bytes(m, Field::Bids))?;
    printing::text(rt, bytes(m, Field::Name))?;
    printing::end(rt)
}

// The valid message: its refusal, its digit fields and the bytes of its texts.
pub fn valid(rt: &impl Print) -> io::Result<()> {
    let m = message::bytes();
    numbers(rt, b"valid", &m)?;
    texts(rt, &m)
}

// Digits have their number, also those of a D31 that is no date and a 601 that is no time.
pub fn nines(rt: &impl Print) -> io::Result<()> {
    numbers(rt, b"nines", &message::of_nines())
}

// A byte raised by one, and 255 made 0.
fn next(b: u8) -> u8 {
    if b == 255 { 0 } else { b + 1 }
}

// The refusal of the message with the byte at an index raised.
fn raised(at: usize) -> u64 {
    let m = message::bytes();
    if at < 339 {
        message::refusal(&message::with(at, next(m[at])))
    } else {
        0
    }
}

// One tag or length byte altered.
fn head_byte(rt: &impl Print, at: usize) -> io::Result<()> {
    printing::text(rt, b"head byte")?;
    printing::number(rt, at as u64)?;
    printing::number(rt, raised(at))?;
    printing::end(rt)
}

// The tag byte of a field, which stands at an index, and its two length bytes altered in turn.
fn head(rt: &impl Print, at: usize) -> io::Result<()>
    requires { at < 339 }
{
    head_byte(rt, at)?;
    head_byte(rt, at + 1)?;
    head_byte(rt, at + 2)
}

// Each of the 30 tag and length bytes altered in turn: 12.
pub fn heads(rt: &impl Print) -> io::Result<()> {
    head(rt, 0)?;
    head(rt, 6)?;
    head(rt, 14)?;
    head(rt, 22)?;
    head(rt, 36)?;
    head(rt, 47)?;
    head(rt, 56)?;
    head(rt, 64)?;
    head(rt, 78)?;
    head(rt, 321)
}

// How many bytes can be altered one by one and leave the message readable: the 309 of the contents.
pub fn contents(rt: &impl Print) -> io::Result<()> {
    let readable = (0..339).filter(|&at| raised(at) == 0).count();
    printing::text(rt, b"altered and readable")?;
    printing::number(rt, readable as u64)?;
    printing::end(rt)
}

// Every length from 0 to 400, the message and then zeros: the readable ones, and how many are refused.
pub fn lengths(rt: &impl Print) -> io::Result<()> {
    let m = message::bytes();
    let mut long = [0u8; 401];
    long[..339].copy_from_slice(&m);
    lengths_of(rt, &long)
}

// Whether a message is readable; its length is printed where it is.
fn readable_length(rt: &impl Print, m: &[u8]) -> io::Result<bool> {
    let readable = message::refusal(m) == 0;
    if readable {
        printing::text(rt, b"readable length")?;
        printing::number(rt, m.len() as u64)?;
        printing::end(rt)?;
    }
    Ok(readable)
}

// Every length below that of a text: the readable ones, and how many are refused.
fn lengths_of(rt: &impl Print, long: &[u8]) -> io::Result<()> {
    let mut refused: u64 = 0;
    for n in 0..long.len() {
        if !readable_length(rt, &long[..n])? {
            refused += 1;
        }
    }
    printing::text(rt, b"refused lengths")?;
    printing::number(rt, refused)?;
    printing::end(rt)
}
