// What the programs with cases print, on standard output.
#![tactic(auto)]

use std::io;

pub fn text(rt: &impl Print, s: &[u8]) -> io::Result<()> {
    rt.write_all(s)
}

pub fn number(rt: &impl Print, n: u64) -> io::Result<()> {
    print!(rt; " {n}")
}

pub fn digits(rt: &impl Print, d: Option<u64>) -> io::Result<()> {
    match d {
        Some(n) => number(rt, n),
        None => text(rt, b" none"),
    }
}

pub fn yes(rt: &impl Print, b: bool) -> io::Result<()> {
    if b {
        text(rt, b" yes")
    } else {
        text(rt, b" no")
    }
}

pub fn end(rt: &impl Print) -> io::Result<()> {
    text(rt, b"\n")
}
