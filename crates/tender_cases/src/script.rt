// The cases of the file stdin, a step on each line; its head says what the first letter means.
ghost use Rattle.std.specs.Prelude.{IfOk};
ghost use Rattle.tender.specs.Viewed.{Given};

use crate::messages::{announcement, announcing, first, with};
use crate::parts::{initial, line_end, number, part, rest};
use crate::steps;
use std::io;
use tender::Tender;

// The index that a line names.
fn index(line: &[u8]) -> usize {
    number(part(line, 2, 5)) as usize
}

// The announcement after a line.
fn announced(a: [u8; 225], line: &[u8]) -> [u8; 225] {
    match initial(line) {
        b'T' => announcement(),
        b'N' => announcing(a, index(line), rest(line, 6)),
        _ => a,
    }
}

// The message after a line.
fn altered(m: [u8; 339], line: &[u8]) -> [u8; 339] {
    match initial(line) {
        b'M' => first(),
        b'F' => with(m, index(line), rest(line, 6)),
        b'B' => with(m, 324, b"               "),
        _ => m,
    }
}

// The three limits that a line names.
fn limits(line: &[u8]) -> [u64; 3] {
    let mut limits = [0u64; 3];
    limits[0] = number(part(line, 2, 17));
    limits[1] = number(part(line, 18, 33));
    limits[2] = number(part(line, 34, 49));
    limits
}

// An opening for the codes 90001 to 90003.
fn opening(rt: &impl Print, t: Tender, a: [u8; 225], line: &[u8]) -> io::Result<Tender>
    requires { Given t }
    ensures { IfOk result Given }
{
    let codes = [90001u32, 90002, 90003];
    let kind = initial(line);
    if kind == b'O' {
        let none = [0u64; 3];
        return steps::open(rt, rest(line, 2), a, &codes, &none);
    }
    if kind == b'K' {
        let limits = limits(line);
        return steps::open(rt, rest(line, 50), a, &codes, &limits);
    }
    Ok(t)
}

// A call without a clock.
fn call(rt: &impl Print, t: Tender, line: &[u8]) -> io::Result<Tender>
    requires { Given t }
    ensures { IfOk result Given }
{
    let kind = initial(line);
    let name = rest(line, 2);
    if kind == b'A' {
        return steps::allot(rt, name, t);
    }
    if kind == b'P' {
        return steps::preview(rt, name, t);
    }
    if kind == b'V' {
        return steps::revoke(rt, name, t);
    }
    Ok(t)
}

// A call at a date and time.
fn timed(rt: &impl Print, t: Tender, m: [u8; 339], line: &[u8]) -> io::Result<Tender>
    requires { Given t }
    ensures { IfOk result Given }
{
    let kind = initial(line);
    let date = number(part(line, 2, 10));
    let time = number(part(line, 11, 17));
    let name = rest(line, 18);
    if kind == b'C' {
        return steps::close(rt, name, t, date, time);
    }
    if kind == b'S' {
        return steps::receive_into_435(rt, name, t, &m, date, time);
    }
    if kind == b'E' {
        return steps::receive(rt, kind, name, t, &m[0..338], date, time);
    }
    if (kind == b'R') | (kind == b'H') | (kind == b'L') {
        return steps::receive(rt, kind, name, t, &m, date, time);
    }
    Ok(t)
}

// What the lines so far lead to.
#[derive(Clone, Copy)]
struct Session {
    announcement: [u8; 225],
    message: [u8; 339],
    tender: Tender,
}

// The session after a line.
fn step(rt: &impl Print, s: Session, line: &[u8]) -> io::Result<Session>
    requires { Given s.tender }
    ensures { IfOk result (λ s. Given s.tender) }
{
    let a = s.announcement;
    let m = s.message;
    let t = s.tender;
    let announcement = announced(a, line);
    let message = altered(m, line);
    let opened = opening(rt, t, announcement, line)?;
    let called = call(rt, opened, line)?;
    let tender = timed(rt, called, message, line)?;
    Ok(Session {
        announcement,
        message,
        tender,
    })
}

// Document 01's announcement and its tender, and the first application.
fn start() -> Session
    ensures { Given result.tender }
{
    let a = announcement();
    Session {
        announcement: a,
        message: first(),
        tender: steps::opened(a),
    }
}

// Every line of a script. The last byte ends the last line, a newline or not.
pub fn run(rt: &impl Print, script: &[u8]) -> io::Result<()> {
    let mut s = start();
    let mut at = 0;
    // A while, since the check refuses a for over split in a function with a type parameter. A second call of step would
    // keep both out of this function, and clear what a step needs for each line.
    while at < script.len() {
        let end = line_end(script, at);
        s = step(rt, s, &script[at..end])?;
        at = end + 1;
    }
    Ok(())
}
