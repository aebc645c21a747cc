// The announcement of document 01's tender, and applications to it.
use addresses::Address;
use envelope::application::{Application, write};
use places::{Amount, Rate};

// The announcement of document 01's tender.
pub fn announcement() -> [u8; 225] {
    let text =
        b"\x01\x00\x036G0\x04\x00\x0501000\x05\x00\x0590001\x02\x00\x0b00000000042\x31\x00\x0811032012\x60\x00\x06093000\x70\x00\x0bT/2012/0001\x71\x00\x12NC/FD/LP/R/Y/VR/MR\x72\x00\x6412032012/03/000000000100000/000000000010000/000000000010000/000000000000000/000000000000000/00100000\x73\x00\x0814032012\x74\x00\x0815032012\x75\x00\x06110000";
    let mut m = [0u8; 225];
    output::internal::put(&mut m, 0, text);
    m
}

// An announcement with another text from an index on.
pub fn announcing(a: [u8; 225], at: usize, text: &[u8]) -> [u8; 225] {
    let mut m = a;
    if at < 225 {
        if text.len() <= 225 - at {
            output::internal::put(&mut m, at, text);
        }
    }
    m
}

// What an application is written from: its addresses, its reference time and one bid.
fn numbers(sender: Address, recipient: Address, time: u64, rate: u32, amount: u64) -> Application {
    let mut rates = [Rate(0); 10];
    rates[0] = Rate(rate);
    let mut amounts = [Amount(0); 10];
    amounts[0] = Amount(amount);
    Application {
        sender,
        recipient,
        cro: 17,
        date: 12032012,
        time,
        check: 12345,
        rates,
        amounts,
    }
}

// An application of a counterparty with a reference time and one bid.
pub fn application(code: u64, time: u64, rate: u32, amount: u64) -> [u8; 339] {
    let a = numbers(Address::Code(code), Address::Code(1000), time, rate, amount);
    let mut m = [0u8; 339];
    let _ = write(a, b"6G1", b"T/2012/0001", b"CONTACT NAME   ", &mut m);
    m
}

// The bid of the first application between two addresses, and zeros after it where one of them is short.
pub fn application_between(sender: Address, recipient: Address, time: u64) -> [u8; 357] {
    let a = numbers(sender, recipient, time, 150000, 60000);
    let mut m = [0u8; 357];
    let _ = write(a, b"6G1", b"T/2012/0001", b"CONTACT NAME   ", &mut m);
    m
}

// An application with another text from an index on.
pub fn with(a: [u8; 339], at: usize, text: &[u8]) -> [u8; 339] {
    let mut m = a;
    if at < 339 {
        if text.len() <= 339 - at {
            output::internal::put(&mut m, at, text);
        }
    }
    m
}

// The first application of document 01's session.
pub fn first() -> [u8; 339] {
    application(90002, 102900, 150000, 60000)
}
