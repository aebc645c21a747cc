// The message that the cases alter: document 01's first bid, with nine more places.
ghost use Rattle.std.specs.Prelude.{◌+◌, ◌≤◌, length};

use addresses::Address;
use envelope::application::{Application, Unreadable, WriteRefusal, read};
use places::{Amount, Rate};

pub fn bytes() -> [u8; 339] {
    let first =
        b"\x01\x00\x036G1\x04\x00\x0590002\x05\x00\x0501000\x02\x00\x0b00000000017\x31\x00\x0812032012\x60\x00\x06102900\x10\x00\x0512345\x70\x00\x0bT/2012/0001\x76\x00\xf0";
    let bids =
        b"00150000/00000000006000000140000/00000000005000000130000/00000000004000000120000/00000000003000000110000/00000000002000000100000/00000000001000099999999/99999999999999900000000/00000000000000000000000/00000000000000000000000/000000000000000";
    let last = b"\x7f\x00\x0fCONTACT \x00 \xff end";
    let mut m = [0u8; 339];
    put(&mut m, 0, first);
    put(&mut m, 81, bids);
    put(&mut m, 321, last);
    m
}

// The message with every digit field of nines, which are no date and no time.
pub fn of_nines() -> [u8; 339] {
    let mut m = bytes();
    put(&mut m, 9, b"99999");
    put(&mut m, 17, b"99999");
    put(&mut m, 25, b"99999999999");
    put(&mut m, 39, b"99999999");
    put(&mut m, 50, b"999999");
    put(&mut m, 59, b"99999");
    m
}

// Copies a text into the message from an index on.
fn put(m: &mut [u8; 339], at: usize, text: &[u8])
    requires { at + length text.now ≤ 339 }
{
    m[at..at + text.len()].copy_from_slice(text);
}

// The message with another byte at an index.
pub fn with(at: usize, b: u8) -> [u8; 339] {
    let mut m = bytes();
    if at < 339 {
        m[at] = b;
    }
    m
}

// The application that the message is written from.
pub fn application() -> Application {
    between(Address::Code(90002), Address::Code(1000))
}

// The same between other addresses.
pub fn between(sender: Address, recipient: Address) -> Application {
    Application {
        sender,
        recipient,
        cro: 17,
        date: 12032012,
        time: 102900,
        check: 12345,
        rates: [
            Rate(150000),
            Rate(140000),
            Rate(130000),
            Rate(120000),
            Rate(110000),
            Rate(100000),
            Rate(99999999),
            Rate(0),
            Rate(0),
            Rate(0),
        ],
        amounts: [
            Amount(60000),
            Amount(50000),
            Amount(40000),
            Amount(30000),
            Amount(20000),
            Amount(10000),
            Amount(999999999999999),
            Amount(0),
            Amount(0),
            Amount(0),
        ],
    }
}

// The number of a short address; the other forms have none here.
pub fn code(a: Address) -> Option<u64> {
    match a {
        Address::Malformed => None,
        Address::Code(n) => Some(n),
        Address::Branch(_, _, _, _) => None,
    }
}

// The number with which reading m is refused, 0 where it is not.
pub fn refusal(m: &[u8]) -> u64 {
    match read(m) {
        Ok(_) => 0,
        Err(Unreadable) => 12,
    }
}

// The number with which writing was refused, 0 where it was not.
pub fn refused(answer: Result<(), WriteRefusal>) -> u64 {
    match answer {
        Ok(()) => 0,
        Err(WriteRefusal::Unfit) => 17,
        Err(WriteRefusal::NoRoom) => 18,
    }
}
