// A program that calls the book, for a maker to copy: docs/MAKERS.md goes through it. It runs the worked session of
// document 01 and prints the answer of every call and every award.
#![tactic(auto)]

mod lines;
mod messages;

ghost use Rattle.std.specs.Prelude.{IfOk};
ghost use Rattle.tender.specs.Viewed.{Given};

use messages::application;
use std::io;
use tender::{Allotted, Tender, number_of};

// Opens the tender of an announcement for three counterparties.
fn open(rt: &impl Print, announcement: &[u8]) -> io::Result<Tender>
    ensures { IfOk result Given }
{
    let codes = [90001u32, 90002, 90003];
    let limits = [0u64; 3]; // One for each code; with zero nobody is capped.
    let opened = tender::open(announcement, &codes, &limits);
    print!(rt; "open")?;
    match opened.answer {
        Ok(()) => lines::accepted(rt)?,
        Err(refusal) => lines::refused(rt, terms::number_of(refusal))?,
    }
    Ok(opened.tender)
}

// Receives a message on the tender's day. The first bytes of the reply, as many as are printed, go back to the sender.
fn receive(rt: &impl Print, t: Tender, message: &[u8], time: u64) -> io::Result<Tender>
    requires { Given t }
    ensures { IfOk result Given }
{
    let mut reply = [0u8; 436];
    let received = t.receive(message, 12032012, time, &mut reply);
    print!(rt; "receive at {time}")?;
    lines::received(rt, received)?;
    Ok(received.tender)
}

// Closes the tender on its day.
fn close(rt: &impl Print, t: Tender, time: u64) -> io::Result<Tender>
    requires { Given t }
    ensures { IfOk result Given }
{
    let closed = t.close(12032012, time);
    print!(rt; "close at {time}")?;
    match closed.answer {
        Ok(()) => lines::accepted(rt)?,
        Err(refusal) => lines::refused(rt, number_of(refusal))?,
    }
    Ok(closed.tender)
}

// Prints what was allotted, or what would be.
fn show(rt: &impl Print, a: Allotted) -> io::Result<()> {
    match a.answer {
        Ok(awarded) => {
            lines::accepted(rt)?;
            lines::awards(rt, a.tender.book(), awarded)?;
            lines::marginal(rt, awarded.marginal)
        }
        Err(refusal) => {
            lines::refused(rt, number_of(refusal))?;
            lines::marginal(rt, None)
        }
    }
}

// Previews the awards, at any hour; the tender stays as it is.
fn preview(rt: &impl Print, t: Tender) -> io::Result<Tender>
    requires { Given t }
    ensures { IfOk result Given }
{
    let previewed = t.preview();
    print!(rt; "preview")?;
    show(rt, previewed)?;
    Ok(previewed.tender)
}

// Allots.
fn allot(rt: &impl Print, t: Tender) -> io::Result<()>
    requires { Given t }
{
    let allotted = t.allot();
    print!(rt; "allot")?;
    show(rt, allotted)
}

fn main(rt: HostRuntime) -> io::Result<()> {
    // One field of the announcement on each line: its tag, its length and what it holds.
    let announcement = b"\x01\x00\x036G0\
        \x04\x00\x0501000\
        \x05\x00\x0590001\
        \x02\x00\x0b00000000001\
        \x31\x00\x0812032012\
        \x60\x00\x06093000\
        \x70\x00\x0bT/2012/0001\
        \x71\x00\x12NC/FD/LP/R/Y/VR/MR\
        \x72\x00\x6412032012/03/000000000100000/000000000010000/000000000010000/000000000000000/000000000000000/00100000\
        \x73\x00\x0814032012\
        \x74\x00\x0815032012\
        \x75\x00\x06110000";
    let t = open(&rt, announcement)?;
    let t = receive(&rt, t, &application(90002, 102900, 150000, 60000), 103000)?;
    let t = receive(&rt, t, &application(90001, 103100, 120000, 50000), 103101)?;
    let t = preview(&rt, t)?;
    let t = receive(&rt, t, &application(90003, 103400, 120000, 40000), 103500)?;
    let t = receive(&rt, t, &application(90002, 102000, 150000, 60000), 104000)?;
    let t = close(&rt, t, 110000)?;
    let t = close(&rt, t, 110001)?;
    allot(&rt, t)
}
