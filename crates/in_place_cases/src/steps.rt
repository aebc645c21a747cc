// Each call both ways. What it is, its answer and whether both ways gave the same are printed as one line.
ghost use Rattle.std.specs.Prelude.{IfOk};
ghost use Rattle.tender.specs.Viewed.{Given};

use crate::calls;
use crate::calls::{Awarded, Reception, Replied};
use crate::comparing::{all_same, same_awards, same_errors, same_rate, same_spaces, same_tender};
use outcomes::internal::Reply;
use places::Amount;
use refusals::{Refusal, number_of};
use std::io;
use tender::{Allotted, Received, Tender};

// A tender, and the words that hold the same one.
#[derive(Clone, Copy)]
pub struct Both {
    pub tender: Tender,
    pub words: [u64; 1560],
}

// The end of a line.
fn end(rt: &impl Print, same: bool) -> io::Result<()> {
    if same {
        printing::text(rt, b", same")?;
    } else {
        printing::text(rt, b", DIFFERENT")?;
    }
    printing::end(rt)
}

// A call that was accepted, or the number with which it was refused.
fn line(rt: &impl Print, number: u64, same: bool) -> io::Result<()> {
    if number == 0 {
        printing::text(rt, b" accepted")?;
    } else {
        printing::text(rt, b" refused")?;
        printing::number(rt, number)?;
    }
    end(rt, same)
}

// The limits of an opening.
fn limited(rt: &impl Print, limits: &[u64]) -> io::Result<()> {
    printing::text(rt, b" limits")?;
    for &limit in limits {
        printing::number(rt, limit)?;
    }
    Ok(())
}

// Opens a tender; words in which it is refused stay.
pub fn open(rt: &impl Print, a: [u8; 225], codes: &[u32], limits: &[u64]) -> io::Result<Both>
    ensures { IfOk result (λ b. Given b.tender) }
{
    printing::text(rt, b"opening ")?;
    printing::text(rt, &a[73..91])?;
    printing::number(rt, codes.len() as u64)?;
    limited(rt, limits)?;
    let o = tender::open(&a, codes, limits);
    let answer = o.answer;
    let number = calls::opening_number(answer);
    let before = [7u64; 1560];
    let after = calls::open(before, a, codes, limits);
    let words = after.words;
    let tender = o.tender;
    if number == 0 {
        line(
            rt,
            number,
            (number == after.number) & same_tender(tender, words),
        )?;
    } else {
        line(
            rt,
            number,
            (number == after.number) & all_same(words, before),
        )?;
    }
    Ok(Both { tender, words })
}

// What a reception by value gives, with its reply space.
#[derive(Clone, Copy)]
struct ByValue {
    received: Received,
    space: [u8; 438],
}

// Receives a message by value.
fn receive_by_value(t: Tender, m: &[u8], at: Reception) -> ByValue
    requires { Given t }
    ensures { Given result.received.tender }
{
    let room = at.room.min(438);
    let mut space = [238u8; 438];
    let received = t.receive(m, at.date, at.time, &mut space[0..room]);
    ByValue { received, space }
}

// Whether two answers to a reception are the same.
fn same_answers(a: Result<Reply, Refusal>, b: Result<Reply, Refusal>) -> bool {
    match a {
        Ok(x) => match b {
            Ok(y) => same_errors(x.errors, y.errors) & (x.length == y.length),
            Err(_) => false,
        },
        Err(x) => match b {
            Ok(_) => false,
            Err(y) => x == y,
        },
    }
}

// Whether two receptions give the same.
fn same_replies(by_value: ByValue, after: Replied) -> bool {
    let r = by_value.received;
    let tender = r.tender;
    let space = by_value.space;
    let lent = after.space;
    let words = after.words;
    same_answers(r.answer, after.answer) & same_spaces(space, lent) & same_tender(tender, words)
}

// A reception that was confirmed, returned with so many errors, or refused.
fn received(rt: &impl Print, r: Received, same: bool) -> io::Result<()> {
    match r.answer {
        Ok(reply) => {
            let n = reply.errors.n;
            if n == 0 {
                printing::text(rt, b" confirmed")?;
            } else {
                printing::text(rt, b" returned with errors")?;
                printing::number(rt, n as u64)?;
            }
            end(rt, same)
        }
        Err(refusal) => line(rt, number_of(refusal), same),
    }
}

// The sender's code and the reference time of a message, which stands nine bytes later in one of a branch, and its reception.
fn arriving(rt: &impl Print, m: [u8; 348], at: Reception) -> io::Result<()> {
    printing::text(rt, &m[9..14])?;
    printing::text(rt, b" ")?;
    if at.length == 348 {
        printing::text(rt, &m[59..65])?;
    } else {
        printing::text(rt, &m[50..56])?;
    }
    printing::text(rt, b" received")?;
    printing::number(rt, at.date)?;
    printing::number(rt, at.time)?;
    printing::number(rt, at.room as u64)
}

// Receives a message.
pub fn receive(rt: &impl Print, b: Both, m: [u8; 348], at: Reception) -> io::Result<Both>
    requires { Given b.tender }
    ensures { IfOk result (λ b. Given b.tender) }
{
    let t = b.tender;
    let words = b.words;
    arriving(rt, m, at)?;
    let end = at.length.min(348);
    let by_value = receive_by_value(t, &m[0..end], at);
    let r = by_value.received;
    let tender = r.tender;
    let after = calls::receive(words, &m[0..end], at);
    received(rt, r, same_replies(by_value, after))?;
    let words = after.words;
    Ok(Both { tender, words })
}

// Closes a tender.
pub fn close(rt: &impl Print, b: Both, date: u64, time: u64) -> io::Result<Both>
    requires { Given b.tender }
    ensures { IfOk result (λ b. Given b.tender) }
{
    let t = b.tender;
    let words = b.words;
    printing::text(rt, b"closing")?;
    printing::number(rt, date)?;
    printing::number(rt, time)?;
    let r = t.close(date, time);
    let tender = r.tender;
    let number = calls::number(r.answer);
    let after = calls::close(words, date, time);
    let words = after.words;
    let same = same_tender(tender, words);
    line(rt, number, (number == after.number) & same)?;
    Ok(Both { tender, words })
}

// Revokes a tender.
pub fn revoke(rt: &impl Print, b: Both) -> io::Result<Both>
    requires { Given b.tender }
    ensures { IfOk result (λ b. Given b.tender) }
{
    let t = b.tender;
    let words = b.words;
    printing::text(rt, b"revoking")?;
    let r = t.revoke();
    let tender = r.tender;
    let number = calls::number(r.answer);
    let after = calls::revoke(words);
    let words = after.words;
    let same = same_tender(tender, words);
    line(rt, number, (number == after.number) & same)?;
    Ok(Both { tender, words })
}

// The eurocents of all awards.
fn total(awards: [u64; 640]) -> u64 {
    awards
        .iter()
        .fold(0, |sum: u64, &cents| sum.wrapping_add(cents))
}

// Whether an allotment or a preview gave the same awards and the same marginal rate in place; zeros and none where it was refused.
fn same_awarded(r: Allotted, after: Awarded) -> bool {
    let rate = after.marginal;
    let cents = after.awards;
    match r.answer {
        Ok(a) => (after.number == 0) & same_awards(a.awards, cents) & same_rate(a.marginal, rate),
        Err(refusal) => {
            (after.number == number_of(refusal))
                & same_awards([Amount(0); 640], cents)
                & same_rate(None, rate)
        }
    }
}

// What an allotment or a preview gave by value and in place.
fn awarded(rt: &impl Print, r: Allotted, after: Awarded) -> io::Result<Both>
    requires { Given r.tender }
    ensures { IfOk result (λ b. Given b.tender) }
{
    let tender = r.tender;
    let words = after.words;
    let cents = after.awards;
    printing::text(rt, b" total")?;
    printing::number(rt, total(cents))?;
    let same = same_awarded(r, after) & same_tender(tender, words);
    match r.answer {
        Ok(_) => line(rt, 0, same)?,
        Err(refusal) => line(rt, number_of(refusal), same)?,
    }
    Ok(Both { tender, words })
}

// Allots a tender.
pub fn allot(rt: &impl Print, b: Both) -> io::Result<Both>
    requires { Given b.tender }
    ensures { IfOk result (λ b. Given b.tender) }
{
    let t = b.tender;
    let words = b.words;
    printing::text(rt, b"allotting")?;
    let r = t.allot();
    let after = calls::allot(words);
    awarded(rt, r, after)
}

// Previews a tender, whose words stay.
pub fn preview(rt: &impl Print, b: Both) -> io::Result<Both>
    requires { Given b.tender }
    ensures { IfOk result (λ b. Given b.tender) }
{
    let t = b.tender;
    let words = b.words;
    printing::text(rt, b"previewing")?;
    let r = t.preview();
    let after = calls::preview(words);
    awarded(rt, r, after)
}
