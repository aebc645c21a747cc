// Sessions written as letters, each of them a step.
ghost use Rattle.std.specs.Prelude.{IfOk, ◌≤◌};
ghost use Rattle.tender.specs.Viewed.{Given};

use crate::calls::{Reception, at};
use crate::messages::{
    announcing, application, at_limit, first, five_errors, in_and_out, more_errors, of_branch,
    of_other_branch, over_limit, six_errors, with,
};
use crate::steps::{Both, allot, close, open, preview, receive, revoke};
use std::io;

// The announcement of an opening.
fn announced(k: u8) -> [u8; 225] {
    match k {
        b'L' => announcing(80, b"A"),
        b'M' => announcing(80, b"A"),
        b'X' => announcing(0, b"!"),
        _ => announcing(0, b""),
    }
}

// The limits of an opening: F, G, K, M and Z cap 90001 and 90003, and one of W and of Y has sixteen digits.
fn limits(k: u8) -> [u64; 4] {
    let capped = [40000u64, 0, 999999999999999, 0];
    let long = [0u64, 0, 1000000000000000, 0];
    match k {
        b'F' => capped,
        b'G' => capped,
        b'K' => capped,
        b'M' => capped,
        b'W' => long,
        b'Y' => long,
        b'Z' => capped,
        _ => [0u64; 4],
    }
}

// How many limits an opening has: N none, F and Z too few, G and Y too many.
fn count(k: u8) -> usize
    ensures { result ≤ 4 }
{
    match k {
        b'F' => 2,
        b'G' => 4,
        b'N' => 0,
        b'Y' => 4,
        b'Z' => 2,
        _ => 3,
    }
}

// Opens a tender: L and M for LA, X with a wrong tag, E and Z for equal codes, N for no code.
fn opening(rt: &impl Print, k: u8) -> io::Result<Both>
    ensures { IfOk result (λ b. Given b.tender) }
{
    let a = announced(k);
    let codes = [90001u32, 90002, 90003];
    let equal = [90001u32, 90002, 90002];
    let limits = limits(k);
    let n = count(k);
    if (k == b'E') | (k == b'Z') {
        return open(rt, a, &equal, &limits[0..n]);
    }
    if k == b'N' {
        return open(rt, a, &codes[0..0], &limits[0..n]);
    }
    open(rt, a, &codes, &limits[0..n])
}

// The message of a reception: b, c and d are the others of document 01's session, k cancels, m is over a limit, v to x come from branches.
fn message(k: u8) -> [u8; 348] {
    match k {
        b'b' => application(b"90001", b"103100", b"00120000/000000000050000"),
        b'c' => application(b"90003", b"103400", b"00120000/000000000040000"),
        b'd' => application(b"90002", b"102000", b"00160000/000000000080000"),
        b'f' => five_errors(),
        b'g' => six_errors(),
        b'h' => more_errors(),
        b'i' => in_and_out(),
        b'j' => at_limit(),
        b'k' => application(b"90003", b"103500", b"00000000/000000000000000"),
        b'm' => over_limit(),
        b'q' => application(b"90003", b"103600", b"00120000/000000000100000"),
        b't' => with(first(), 6, b"!"),
        b'u' => with(first(), 50, b"103000"),
        b'v' => of_branch(),
        b'w' => of_other_branch(),
        b'x' => with(of_other_branch(), 59, b"103000"),
        _ => first(),
    }
}

// A reception of so many bytes on a date, with so much room.
fn on(length: usize, date: u64, room: usize) -> Reception {
    Reception {
        length,
        date,
        time: 104100,
        room,
    }
}

// When a call is made: B at the cut-off, D and n on no date, o at no time, h and l late; r is cut short.
fn reception(k: u8) -> Reception {
    match k {
        b'B' => at(110000),
        b'C' => at(110001),
        b'D' => on(339, 30022012, 438),
        b'g' => on(339, 12032012, 436),
        b'h' => at(110001),
        b'l' => at(110001),
        b'n' => on(339, 30022012, 438),
        b'o' => at(240000),
        b'r' => on(338, 12032012, 438),
        b's' => on(339, 12032012, 435),
        b'u' => on(339, 12032012, 436),
        b'v' => on(348, 12032012, 436),
        b'w' => on(348, 12032012, 436),
        b'x' => on(348, 12032012, 436),
        _ => at(104100),
    }
}

// A step: A allots, P previews, V revokes, B, C and D close, other capitals open, small letters receive.
fn step(rt: &impl Print, b: Both, k: u8) -> io::Result<Both>
    requires { Given b.tender }
    ensures { IfOk result (λ b. Given b.tender) }
{
    if k == b'A' {
        return allot(rt, b);
    }
    if k == b'P' {
        return preview(rt, b);
    }
    if k == b'V' {
        return revoke(rt, b);
    }
    if k < b'E' {
        let at = reception(k);
        return close(rt, b, at.date, at.time);
    }
    if k < b'a' {
        return opening(rt, k);
    }
    receive(rt, b, message(k), reception(k))
}

// Every step, after an opening for LP.
pub fn run(rt: &impl Print, steps: &[u8]) -> io::Result<()> {
    let mut b = opening(rt, b'O')?;
    for &k in steps {
        b = step(rt, b, k)?;
    }
    Ok(())
}
