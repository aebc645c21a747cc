// The announcement and the first application of document 01's session, and both with other bytes. An application of 339 bytes
// stands at the start of 348, which one of a branch fills.
use output::internal::put;

// The announcement with another text from an index on.
pub fn announcing(at: usize, text: &[u8]) -> [u8; 225] {
    let announcement = b"\x01\x00\x036G0\
        \x04\x00\x0501000\
        \x05\x00\x0590001\
        \x02\x00\x0b00000000042\
        \x31\x00\x0811032012\
        \x60\x00\x06093000\
        \x70\x00\x0bT/2012/0001\
        \x71\x00\x12NC/FD/LP/R/Y/VR/MR\
        \x72\x00\x6412032012/03/000000000100000/000000000010000/000000000010000/000000000000000/000000000000000/00100000\
        \x73\x00\x0814032012\
        \x74\x00\x0815032012\
        \x75\x00\x06110000";
    let mut m = [0u8; 225];
    put(&mut m, 0, announcement);
    if at < 225 {
        if text.len() <= 225 - at {
            put(&mut m, at, text);
        }
    }
    m
}

// The first application.
pub fn first() -> [u8; 348] {
    let application = b"\x01\x00\x036G1\
        \x04\x00\x0590002\
        \x05\x00\x0501000\
        \x02\x00\x0b00000000017\
        \x31\x00\x0812032012\
        \x60\x00\x06102900\
        \x10\x00\x0512345\
        \x70\x00\x0bT/2012/0001\
        \x76\x00\xf000150000/000000000060000\
        00000000/00000000000000000000000/00000000000000000000000/000000000000000\
        00000000/00000000000000000000000/00000000000000000000000/000000000000000\
        00000000/00000000000000000000000/00000000000000000000000/000000000000000\
        \x7f\x00\x0fCONTACT NAME   ";
    let mut m = [0u8; 348];
    put(&mut m, 0, application);
    m
}

// An application with another text from an index on.
pub fn with(a: [u8; 348], at: usize, text: &[u8]) -> [u8; 348] {
    let mut m = a;
    if at < 348 {
        if text.len() <= 348 - at {
            put(&mut m, at, text);
        }
    }
    m
}

// The application of a counterparty at a reference time, with bids from the first place on.
pub fn application(code: &[u8], time: &[u8], bids: &[u8]) -> [u8; 348] {
    with(with(with(first(), 9, code), 50, time), 81, bids)
}

// The first application from a branch.
pub fn of_branch() -> [u8; 348] {
    let short = first();
    let mut m = short;
    put(&mut m, 6, b"\x04\x00\x0e90002/00117/AB");
    put(&mut m, 23, &short[14..339]);
    m
}

// The same from another branch.
pub fn of_other_branch() -> [u8; 348] {
    with(of_branch(), 15, b"00118/CD")
}

// The first application with errors in its type, sender, recipient, CRO and date.
pub fn five_errors() -> [u8; 348] {
    let m = with(with(first(), 3, b"6G2"), 9, b"90004");
    with(
        with(with(m, 17, b"01001"), 25, b"0000000001x"),
        39,
        b"13032012",
    )
}

// The same with an error in its time.
pub fn six_errors() -> [u8; 348] {
    with(five_errors(), 50, b"240000")
}

// The same with errors in its check digit, its identifier and its bids.
pub fn more_errors() -> [u8; 348] {
    let bids = b"00120500/000000000009999\
        00000000/000000000000000\
        00120000/000000000025000\
        00120000/000000000020000\
        00120000/000000000020000";
    with(
        with(with(six_errors(), 59, b"1234-"), 67, b"T/2012/0002"),
        81,
        bids,
    )
}

// In LA a bid below the limit rate and one above it.
pub fn in_and_out() -> [u8; 348] {
    let bids = b"00090000/00000000006000000101000/000000000010000";
    application(b"90002", b"102900", bids)
}

// A bid at the limit rate and one at zero.
pub fn at_limit() -> [u8; 348] {
    let bids = b"00100000/00000000005000000000000/000000000020000";
    application(b"90001", b"102900", bids)
}

// Two bids at one rate, of which the first is over the limit of the capped openings.
pub fn over_limit() -> [u8; 348] {
    let bids = b"00120000/00000000006000000120000/000000000040000";
    application(b"90001", b"103200", bids)
}
