// Long forms of sender and recipient: written, read back, and with a byte out of place.
use crate::message;
use addresses::Address;
use envelope::application::{no_fields, read, write};
use std::io;

// A branch of the sender.
fn sender(branch: u64) -> Address {
    Address::Branch(90002, branch, b'A', b'B')
}

// A branch of the recipient.
fn recipient() -> Address {
    Address::Branch(1000, 7, b'/', b' ')
}

// What an address was read as.
fn address(rt: &impl Print, a: Address) -> io::Result<()> {
    match a {
        Address::Malformed => printing::text(rt, b" none"),
        Address::Code(code) => printing::number(rt, code),
        Address::Branch(code, branch, first, second) => {
            let text = [b' ', first, second];
            printing::number(rt, code)?;
            printing::number(rt, branch)?;
            printing::text(rt, &text)
        }
    }
}

// The sender and the recipient of a message.
fn both(rt: &impl Print, m: &[u8]) -> io::Result<()> {
    let f = read(m).unwrap_or(no_fields());
    let from = f.sender;
    let to = f.recipient;
    address(rt, from)?;
    address(rt, to)?;
    printing::end(rt)
}

// The refusal of the message between two addresses, written into a space.
fn write_into(space: &mut [u8], from: Address, to: Address) -> u64 {
    let answer = write(
        message::between(from, to),
        b"6G1",
        b"T/2012/0001",
        b"CONTACT \x00 \xff end",
        space,
    );
    message::refused(answer)
}

// What a writing left in the first n bytes: its refusal, and what is read from them.
fn outcome(rt: &impl Print, n: usize, refusal: u64, space: [u8; 357]) -> io::Result<()> {
    printing::text(rt, b"addresses")?;
    printing::number(rt, n as u64)?;
    printing::number(rt, refusal)?;
    if n <= 357 {
        both(rt, &space[0..n])?;
    }
    Ok(())
}

// Writes the message between two addresses into n bytes.
fn written(rt: &impl Print, from: Address, to: Address, n: usize) -> io::Result<()> {
    let mut space = [170u8; 357];
    if n <= 357 {
        let refusal = write_into(&mut space[0..n], from, to);
        outcome(rt, n, refusal, space)?;
    }
    Ok(())
}

// Each form by itself, with one byte too few and with enough; a branch of six digits.
pub fn spaces(rt: &impl Print) -> io::Result<()> {
    let code = Address::Code(90002);
    let treasury = Address::Code(1000);
    written(rt, sender(117), recipient(), 356)?;
    written(rt, sender(117), recipient(), 357)?;
    written(rt, sender(117), treasury, 347)?;
    written(rt, sender(117), treasury, 348)?;
    written(rt, code, recipient(), 347)?;
    written(rt, code, recipient(), 348)?;
    written(rt, code, treasury, 338)?;
    written(rt, code, treasury, 339)?;
    written(rt, sender(99999), treasury, 348)?;
    written(rt, sender(100000), treasury, 347)
}

// The message between branches.
fn long() -> [u8; 357] {
    let mut m = [170u8; 357];
    write_into(&mut m, sender(117), recipient());
    m
}

// The same with another byte at an index.
fn with(at: usize, b: u8) -> [u8; 357] {
    let mut m = long();
    if at < 357 {
        m[at] = b;
    }
    m
}

// What is read of it then.
fn altered(rt: &impl Print, at: usize, b: u8) -> io::Result<()> {
    let m = with(at, b);
    printing::text(rt, b"branch byte")?;
    printing::number(rt, at as u64)?;
    printing::number(rt, message::refusal(&m))?;
    both(rt, &m)
}

// The bytes of the sender: the code, a slash, the branch, a slash and two characters; then its head and the recipient's slash.
pub fn bytes(rt: &impl Print) -> io::Result<()> {
    altered(rt, 13, b'x')?;
    altered(rt, 14, b'-')?;
    altered(rt, 15, b' ')?;
    altered(rt, 20, b'0')?;
    altered(rt, 21, 0)?;
    altered(rt, 8, 5)?;
    altered(rt, 31, b'x')
}
