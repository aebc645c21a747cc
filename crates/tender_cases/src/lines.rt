// What is printed of an answer and of a tender.
ghost use Rattle.std.specs.Prelude.{◌+◌, ◌<◌, ◌≤◌, length};

use book::Book;
use errors::Errors;
use places::{Amount, Rate};
use std::io;
use tender::{Received, Refusal, State, Tender};
use terms::OpenRefusal;

// The number of a refusal.
fn number_of(r: Refusal) -> u64 {
    match r {
        Refusal::Revoked => 8,
        Refusal::Over => 9,
        Refusal::ClockInvalid => 10,
        Refusal::SpaceShort => 11,
        Refusal::Unreadable => 12,
        Refusal::BeforeCutOff => 13,
        Refusal::Open => 14,
        Refusal::Announced => 15,
        Refusal::BidsExceed => 16,
    }
}

// The number of a refusal to open.
fn opening_number(r: OpenRefusal) -> u64 {
    match r {
        OpenRefusal::NotAnnouncement => 1,
        OpenRefusal::OtherOrigin => 2,
        OpenRefusal::Malformed => 3,
        OpenRefusal::UnknownType => 4,
        OpenRefusal::Impossible => 5,
        OpenRefusal::Disordered => 6,
        OpenRefusal::BadCodes => 7,
        OpenRefusal::LimitsMiscounted => 19,
        OpenRefusal::LimitTooLong => 20,
    }
}

// That a call was accepted.
fn accepted(rt: &impl Print) -> io::Result<()> {
    printing::text(rt, b" accepted")
}

// That a call was refused, and the number with which it was.
fn refused(rt: &impl Print, n: u64) -> io::Result<()> {
    printing::text(rt, b" refused")?;
    printing::number(rt, n)
}

// The answer to closing, revoking, allotting or a preview, by the refusal in it.
pub fn answered(rt: &impl Print, refusal: Option<Refusal>) -> io::Result<()> {
    match refusal {
        Some(r) => refused(rt, number_of(r)),
        None => accepted(rt),
    }
}

// The answer to opening.
pub fn opened(rt: &impl Print, answer: Result<(), OpenRefusal>) -> io::Result<()> {
    match answer {
        Ok(()) => accepted(rt),
        Err(r) => refused(rt, opening_number(r)),
    }
}

// Which of the IDCs a code stands under.
fn idc(code: u16) -> usize
    ensures { result < 10 }
{
    match code {
        900 => 0,
        309 | 300 => 1,
        599 => 2,
        521 => 3,
        502 | 522 => 4,
        503 | 302 => 5,
        908 => 6,
        303 => 7,
        301 => 8,
        _ => 9,
    }
}

// Three bytes of a text.
fn three(rt: &impl Print, text: &[u8], at: usize) -> io::Result<()>
    requires { at + 3 ≤ length text.now }
{
    printing::text(rt, &text[at..at + 3])
}

// One error, as IDC and code.
fn error(rt: &impl Print, code: u16) -> io::Result<()> {
    printing::text(rt, b" ")?;
    three(rt, b"001040050020D316010106G06G56G6", 3 * idc(code))?;
    print!(rt; "-{code}")
}

// The errors of a message.
fn errors(rt: &impl Print, e: Errors) -> io::Result<()> {
    for &code in e.as_slice() {
        error(rt, code)?;
    }
    Ok(())
}

// The answer to a reception.
pub fn received(rt: &impl Print, r: Received) -> io::Result<()> {
    match r.answer {
        Ok(reply) => {
            let e = reply.errors;
            if e.is_empty() {
                printing::text(rt, b" confirmed")?;
            } else {
                printing::text(rt, b" returned")?;
                errors(rt, e)?;
            }
            printing::number(rt, reply.length as u64)
        }
        Err(refusal) => refused(rt, number_of(refusal)),
    }
}

// Where a tender stands.
fn state(rt: &impl Print, s: State) -> io::Result<()> {
    match s {
        State::Open => printing::text(rt, b" open"),
        State::Closed => printing::text(rt, b" closed"),
        State::Announced => printing::text(rt, b" announced"),
        State::Revoked => printing::text(rt, b" revoked"),
    }
}

// A place, where it is filled.
fn place(rt: &impl Print, k: u64, rate: Rate, amount: Amount) -> io::Result<()> {
    if (rate.0 != 0) | (amount.0 != 0) {
        printing::text(rt, b" place")?;
        printing::number(rt, k)?;
        printing::number(rt, rate.0 as u64)?;
        printing::number(rt, amount.0)?;
    }
    Ok(())
}

// The filled places of the code at an index, numbered from 1.
fn places(rt: &impl Print, b: Book, i: usize) -> io::Result<()>
    requires { i < 64 }
{
    for k in 0..10 {
        let at = 10 * i + k;
        place(rt, k as u64 + 1, b.rates[at], b.amounts[at])?;
    }
    Ok(())
}

// What is held for the code at an index: its time, or that there is none, and its bids.
fn entry(rt: &impl Print, b: Book, i: usize) -> io::Result<()> {
    if i < 64 {
        printing::number(rt, b.codes[i] as u64)?;
        if b.has[i] {
            printing::number(rt, b.held[i])?;
        } else {
            printing::text(rt, b" none")?;
        }
        places(rt, b, i)?;
    }
    Ok(())
}

// What is held for each code.
fn entries(rt: &impl Print, b: Book) -> io::Result<()> {
    for i in 0..b.n {
        entry(rt, b, i)?;
    }
    Ok(())
}

// Where the tender stands after a call and what it holds, at the end of a line.
pub fn state_after(rt: &impl Print, t: Tender) -> io::Result<()> {
    printing::text(rt, b";")?;
    state(rt, t.state())?;
    entries(rt, t.book())?;
    printing::end(rt)
}

// One award above zero, with its counterparty and place.
fn award(rt: &impl Print, b: Book, i: usize, awarded: Amount) -> io::Result<()>
    requires { i < 640 }
{
    if 0 < awarded.0 {
        printing::number(rt, b.codes[i / 10] as u64)?;
        printing::text(rt, b" place")?;
        printing::number(rt, (i % 10) as u64 + 1)?;
        printing::number(rt, awarded.0)?;
    }
    Ok(())
}

// The awards above zero in book order.
pub fn awards(rt: &impl Print, b: Book, awarded: [Amount; 640]) -> io::Result<()> {
    for (i, &amount) in awarded.iter().enumerate() {
        award(rt, b, i, amount)?;
    }
    Ok(())
}

// The marginal rate, or that there is none.
pub fn marginal(rt: &impl Print, m: Option<Rate>) -> io::Result<()> {
    printing::text(rt, b" marginal rate")?;
    match m {
        Some(rate) => printing::number(rt, rate.0 as u64),
        None => printing::text(rt, b" none"),
    }
}
