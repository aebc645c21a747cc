// For measuring only: messages received one after the other by one tender, each by the tender that the reception before it gave.
#![tactic(auto)]

ghost use Rattle.tender.specs.Viewed.{Given};

use book::Book;
use tender::{Tender, open};

// The tender after the receptions of all messages; the space holds the last reply.
fn received(mut t: Tender, messages: &[u8], date: u64, time: u64, space: &mut [u8]) -> Tender
    requires { Given t }
{
    for message in messages.chunks_exact(339) {
        t = t.receive(message, date, time, space).tender;
    }
    t
}

// The eurocents of all bids in a book, so that every part of it is looked at in the end.
fn total(b: Book) -> u64 {
    b.amounts
        .iter()
        .fold(0, |sum: u64, amount| sum.wrapping_add(amount.0))
}

// Opens a tender for some codes with their credit limits, receives messages of 339 bytes each, and gives the eurocents that it holds then.
#[unsafe(no_mangle)]
pub extern "C" fn measured_receptions(
    announcement: &[u8],
    codes: &[u32],
    limits: &[u64],
    messages: &[u8],
    date: u64,
    time: u64,
    space: &mut [u8],
) -> u64 {
    let opened = open(announcement, codes, limits);
    let t = opened.tender;
    total(received(t, messages, date, time, space).book())
}
