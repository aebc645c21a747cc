// Each call on a tender: its name, its answer and the tender after it are printed as one line.
ghost use Rattle.std.specs.Prelude.{IfOk};
ghost use Rattle.tender.specs.Viewed.{Given};

use crate::{lines, spaces};
use book::Book;
use std::io;
use tender::{Allotted, Received, Tender};

// Opens a tender of an announcement, for the codes 90001 to 90003 without limits.
pub fn opened(a: [u8; 225]) -> Tender
    ensures { Given result }
{
    let codes = [90001u32, 90002, 90003];
    let limits = [0u64; 3];
    tender::open(&a, &codes, &limits).tender
}

// Opens a tender.
pub fn open(
    rt: &impl Print,
    name: &[u8],
    a: [u8; 225],
    codes: &[u32],
    limits: &[u64],
) -> io::Result<Tender>
    ensures { IfOk result Given }
{
    let o = tender::open(&a, codes, limits);
    let answer = o.answer;
    printing::text(rt, name)?;
    lines::opened(rt, answer)?;
    lines::state_after(rt, o.tender)?;
    Ok(o.tender)
}

// The length of the reply to a message, 0 where its reception is refused.
fn reply_length(r: Received) -> usize {
    match r.answer {
        Ok(reply) => reply.length,
        Err(_) => 0,
    }
}

// Receives a message into a space of 438 bytes.
pub fn receive(
    rt: &impl Print,
    kind: u8,
    name: &[u8],
    t: Tender,
    m: &[u8],
    date: u64,
    time: u64,
) -> io::Result<Tender>
    requires { Given t }
    ensures { IfOk result Given }
{
    let mut space = [238u8; 438];
    let r = t.receive(m, date, time, &mut space);
    printing::text(rt, name)?;
    lines::received(rt, r)?;
    spaces::asked(rt, kind, &space, reply_length(r))?;
    lines::state_after(rt, r.tender)?;
    Ok(r.tender)
}

// Receives a message into a space of 435 bytes, and prints how many of them stay.
pub fn receive_into_435(
    rt: &impl Print,
    name: &[u8],
    t: Tender,
    m: &[u8],
    date: u64,
    time: u64,
) -> io::Result<Tender>
    requires { Given t }
    ensures { IfOk result Given }
{
    let mut space = [238u8; 435];
    let r = t.receive(m, date, time, &mut space);
    printing::text(rt, name)?;
    lines::received(rt, r)?;
    printing::number(rt, spaces::untouched(&space))?;
    lines::state_after(rt, r.tender)?;
    Ok(r.tender)
}

// Closes a tender.
pub fn close(rt: &impl Print, name: &[u8], t: Tender, date: u64, time: u64) -> io::Result<Tender>
    requires { Given t }
    ensures { IfOk result Given }
{
    let r = t.close(date, time);
    printing::text(rt, name)?;
    lines::answered(rt, r.answer.err())?;
    lines::state_after(rt, r.tender)?;
    Ok(r.tender)
}

// Revokes a tender.
pub fn revoke(rt: &impl Print, name: &[u8], t: Tender) -> io::Result<Tender>
    requires { Given t }
    ensures { IfOk result Given }
{
    let r = t.revoke();
    printing::text(rt, name)?;
    lines::answered(rt, r.answer.err())?;
    lines::state_after(rt, r.tender)?;
    Ok(r.tender)
}

// Prints what an allotment or a preview gave, with the awards to the bids of a book and the marginal rate.
fn awarded(rt: &impl Print, name: &[u8], b: Book, r: Allotted) -> io::Result<()> {
    printing::text(rt, name)?;
    lines::answered(rt, r.answer.err())?;
    match r.answer {
        Ok(a) => {
            lines::awards(rt, b, a.awards)?;
            lines::marginal(rt, a.marginal)?;
        }
        Err(_) => lines::marginal(rt, None)?,
    }
    lines::state_after(rt, r.tender)
}

// Allots a tender.
pub fn allot(rt: &impl Print, name: &[u8], t: Tender) -> io::Result<Tender>
    requires { Given t }
    ensures { IfOk result Given }
{
    let r = t.allot();
    awarded(rt, name, t.book(), r)?;
    Ok(r.tender)
}

// Previews a tender.
pub fn preview(rt: &impl Print, name: &[u8], t: Tender) -> io::Result<Tender>
    requires { Given t }
    ensures { IfOk result Given }
{
    let r = t.preview();
    awarded(rt, name, t.book(), r)?;
    Ok(r.tender)
}
