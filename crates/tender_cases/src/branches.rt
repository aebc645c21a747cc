// Applications of branches: long forms of sender and recipient, in a tender of their own.
ghost use Rattle.std.specs.Prelude.{IfOk};
ghost use Rattle.tender.specs.Viewed.{Given};

use crate::messages::{announcement, application_between};
use crate::parts::part;
use crate::steps;
use addresses::Address;
use std::io;
use tender::Tender;

// An application of a branch of counterparty 90002, its last nine bytes zeros.
fn of_branch(number: u64, time: u64) -> [u8; 357] {
    let branch = Address::Branch(90002, number, b'A', b'B');
    application_between(branch, Address::Code(1000), time)
}

// The same with another byte for its first slash.
fn misplaced(number: u64, time: u64) -> [u8; 357] {
    let mut m = of_branch(number, time);
    m[14] = b'-';
    m
}

// An application between branches; of the recipient's only the code is looked at.
fn to_branch(number: u64, time: u64) -> [u8; 357] {
    let branch = Address::Branch(90002, number, b'A', b'B');
    application_between(branch, Address::Branch(1000, 7, b'/', b' '), time)
}

// Receives the first n bytes of an application.
fn receive(
    rt: &impl Print,
    kind: u8,
    name: &[u8],
    t: Tender,
    m: [u8; 357],
    n: usize,
) -> io::Result<Tender>
    requires { Given t }
    ensures { IfOk result Given }
{
    steps::receive(rt, kind, name, t, part(&m, 0, n), 12032012, 103000)
}

// The branches of a code are one counterparty; a confirmation repeats the sender whole.
pub fn all(rt: &impl Print) -> io::Result<()> {
    let t = steps::opened(announcement());
    let t = receive(rt, b'H', b"a branch", t, to_branch(117, 102900), 357)?;
    let t = receive(
        rt,
        b'R',
        b"another branch at that time",
        t,
        of_branch(118, 102900),
        348,
    )?;
    let t = receive(rt, b'R', b"no slash", t, misplaced(118, 102901), 348)?;
    let t = receive(
        rt,
        b'R',
        b"another branch, later",
        t,
        of_branch(118, 102901),
        348,
    )?;
    receive(
        rt,
        b'R',
        b"cut to 339 bytes",
        t,
        of_branch(118, 102902),
        339,
    )?;
    Ok(())
}
