// Cases of a 6G0 that run instead of being proved. What is printed is held to the file stdout,
// which was written from document 01.
#![tactic(auto)]

use announcement::{
    Announcement, Characteristics, Field, Kind, References, Side, bytes, dates_ordered, read,
};
use places::{Amount, Rate};
use std::io;

// Document 01's tender, with another byte at an index.
fn message(at: usize, b: u8) -> [u8; 225] {
    let text =
        b"\x01\x00\x036G0\x04\x00\x0501000\x05\x00\x0590001\x02\x00\x0b00000000042\x31\x00\x0811032012\x60\x00\x06093000\x70\x00\x0bT/2012/0001\x71\x00\x12NC/FD/LP/R/Y/VR/MR\x72\x00\x6412032012/03/000000000100000/000000000010000/000000000010000/000000000000000/000000000000000/00100000\x73\x00\x0814032012\x74\x00\x0815032012\x75\x00\x06110000";
    let mut m = [0u8; 225];
    output::internal::put(&mut m, 0, text);
    if at < 225 {
        m[at] = b;
    }
    m
}

fn references(rt: &impl Print, r: References) -> io::Result<()> {
    let sender = r.sender;
    let recipient = r.recipient;
    let cro = r.cro;
    let date = r.date;
    let time = r.time;
    printing::digits(rt, sender)?;
    printing::digits(rt, recipient)?;
    printing::digits(rt, cro)?;
    printing::digits(rt, date)?;
    printing::digits(rt, time)
}

fn side(rt: &impl Print, s: Side) -> io::Result<()> {
    match s {
        Side::La => printing::text(rt, b" LA"),
        Side::Lp => printing::text(rt, b" LP"),
    }
}

fn kind(rt: &impl Print, k: Option<Kind>) -> io::Result<()> {
    match k {
        Some(k) => {
            side(rt, k.side)?;
            printing::yes(rt, k.choice)
        }
        None => printing::text(rt, b" none"),
    }
}

// Zeros, which are printed for characteristics that are malformed.
fn zeros() -> Characteristics {
    Characteristics {
        execution: 0,
        most: 0,
        offered: Amount(0),
        minimum: Amount(0),
        increment: Amount(0),
        maximum: Amount(0),
        allocation: Amount(0),
        limit: Rate(0),
    }
}

fn characteristics(rt: &impl Print, told: Option<Characteristics>) -> io::Result<()> {
    printing::yes(rt, told.is_some())?;
    let c = told.unwrap_or(zeros());
    printing::number(rt, c.execution)?;
    printing::number(rt, c.most)?;
    printing::number(rt, c.offered.0)?;
    printing::number(rt, c.minimum.0)?;
    printing::number(rt, c.increment.0)?;
    printing::number(rt, c.maximum.0)?;
    printing::number(rt, c.allocation.0)?;
    printing::number(rt, u64::from(c.limit.0))
}

fn announcement(rt: &impl Print, a: Announcement) -> io::Result<()> {
    let r = a.references;
    let k = a.kind;
    let c = a.characteristics;
    let spot = a.spot;
    let forward = a.forward;
    let cutoff = a.cutoff;
    references(rt, r)?;
    printing::yes(rt, a.identified)?;
    kind(rt, k)?;
    characteristics(rt, c)?;
    printing::digits(rt, spot)?;
    printing::digits(rt, forward)?;
    printing::digits(rt, cutoff)
}

// What is printed of a message that is no 6G0.
fn nothing() -> Announcement {
    Announcement {
        references: References {
            sender: None,
            recipient: None,
            cro: None,
            date: None,
            time: None,
        },
        identified: false,
        kind: None,
        characteristics: None,
        spot: None,
        forward: None,
        cutoff: None,
    }
}

// What the message says with another byte at an index.
fn case(rt: &impl Print, name: &[u8], at: usize, b: u8) -> io::Result<()> {
    let m = message(at, b);
    let told = read(&m);
    printing::text(rt, name)?;
    printing::yes(rt, told.is_some())?;
    announcement(rt, told.unwrap_or(nothing()))?;
    printing::end(rt)
}

// The fields and what is said of them: as it is, then one byte altered at a time.
fn fields(rt: &impl Print) -> io::Result<()> {
    case(rt, b"valid", 0, 1)?;
    case(rt, b"tag", 0, 2)?;
    case(rt, b"length", 2, 4)?;
    case(rt, b"sender", 9, 32)?;
    case(rt, b"identifier", 60, 45)?;
    case(rt, b"LA", 80, 65)?;
    case(rt, b"N", 84, 78)?;
    case(rt, b"lower case", 84, 121)
}

// The characteristics: a slash and a digit altered, then numbers that are other numbers.
fn parts(rt: &impl Print) -> io::Result<()> {
    case(rt, b"slash", 102, 32)?;
    case(rt, b"colon", 193, 58)?;
    case(rt, b"most", 103, 57)?;
    case(rt, b"limit", 186, 57)?;
    case(rt, b"no date", 94, 57)?;
    case(rt, b"five decimals", 193, 49)?;
    case(rt, b"minimum allocation", 170, 57)
}

// Fields of digits that are no date and no time: D31, 601, spot date, forward date, cut-off.
fn no_dates(rt: &impl Print) -> io::Result<()> {
    case(rt, b"D31", 39, 57)?;
    case(rt, b"601", 50, 57)?;
    case(rt, b"spot date", 197, 57)?;
    case(rt, b"forward date", 208, 57)?;
    case(rt, b"cut-off", 219, 57)
}

fn length(rt: &impl Print, m: &[u8]) -> io::Result<()> {
    printing::text(rt, b"length")?;
    printing::number(rt, m.len() as u64)?;
    printing::yes(rt, read(m).is_some())?;
    printing::text(rt, bytes(m, Field::TenderType))?;
    printing::end(rt)
}

// 225 bytes are readable; one fewer is not, and neither are none.
fn lengths(rt: &impl Print) -> io::Result<()> {
    let m = message(0, 1);
    length(rt, &m)?;
    length(rt, &m[0..224])?;
    length(rt, b"")
}

fn dates(
    rt: &impl Print,
    reference: u64,
    execution: u64,
    spot: u64,
    forward: u64,
) -> io::Result<()> {
    printing::yes(rt, dates_ordered(reference, execution, spot, forward))
}

// Equal dates, and dates whose order as numbers is another.
fn order(rt: &impl Print) -> io::Result<()> {
    printing::text(rt, b"order")?;
    dates(rt, 12032012, 12032012, 12032012, 13032012)?;
    dates(rt, 13032012, 12032012, 14032012, 15032012)?;
    dates(rt, 11032012, 12032012, 11032012, 15032012)?;
    dates(rt, 11032012, 12032012, 14032012, 14032012)?;
    dates(rt, 31012012, 1022012, 2022012, 1032012)?;
    dates(rt, 1022012, 31012012, 2022012, 1032012)?;
    printing::end(rt)
}

fn main(rt: HostRuntime) -> io::Result<()> {
    fields(&rt)?;
    parts(&rt)?;
    no_dates(&rt)?;
    lengths(&rt)?;
    order(&rt)
}
