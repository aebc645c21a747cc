// The bytes of a reply, and of the space that it is written into.
use crate::parts::part;
use std::io;

// Every byte of a space in hexadecimal.
fn bytes(rt: &impl Print, space: &[u8]) -> io::Result<()> {
    for b in space {
        print!(rt; "{b:02x}")?;
    }
    Ok(())
}

// How many bytes of a space hold 238.
pub fn untouched(space: &[u8]) -> u64 {
    space.iter().filter(|&&b| b == 238).count() as u64
}

// What a line asks for: H the space, L the last field of a returned message, which begins past the
// message and the field before it.
pub fn asked(rt: &impl Print, kind: u8, space: &[u8], end: usize) -> io::Result<()> {
    if kind == b'H' {
        printing::text(rt, b" ")?;
        bytes(rt, space)?;
    }
    if kind == b'L' {
        printing::text(rt, b" ")?;
        printing::text(rt, part(space, 369, end))?;
    }
    Ok(())
}
