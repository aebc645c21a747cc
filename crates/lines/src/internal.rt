// Lines written into a lent space from its start. Of a reception s begins with its date and time, and m is its message.
ghost use Rattle.std.specs.Prelude.{◌≡◌, true, ◌++◌, ◌+◌, ◌≤◌, ◌<◌, length};
ghost use Rattle.layout.specs.Fields.{readable};
ghost use Rattle.output.specs.Output.{Wrote};
ghost use Rattle.texts.specs.Texts.{ascii};
ghost use Rattle.envelope.specs.Application.{layout6_g1};
ghost use Rattle.errors.specs.Listed.{listed};
ghost use Rattle.log_rules.specs.Lines.{sender_of, refused_line};
ghost use Rattle.lines.specs.Parts.{clock, confirmed_at, returned_at};

use digits::internal::put_digits;
use envelope::internal::sender_code;
use errors::Errors;
use output::internal::{put, put_byte};
use replies::internal::put_errors;

// Writes the kind of a line, a blank, and the date and time of a reception.
fn put_clock(space: &mut [u8], kind: u8, s: &[u8]) -> usize
    requires { (17 ≤ length space.old) × (14 ≤ length s.now) }
    ensures { Wrote space.old 0 (clock kind s.now) space.new result × (result ≡ 17) }
{
    let first = put_byte(space, 0, kind);
    let date = put_byte(space, first, b' ');
    let second = put(space, date, &s[0..8]);
    let time = put_byte(space, second, b' ');
    put(space, time, &s[8..14])
}

// Writes a blank and the first five bytes of the sender of a message.
fn put_sender(space: &mut [u8], at: usize, m: &[u8]) -> usize
    requires m_value { readable layout6_g1 m.now ≡ true }
    requires at_in_bounds { at + 6 ≤ length space.old }
    ensures { Wrote space.old at (ascii " " ++ sender_of m.now) space.new result × (result ≡ at + 6) }
{
    let sender = sender_code(m);
    let start = put_byte(space, at, b' ');
    put(space, start, sender)
}

// Writes the line of a confirmed reception.
pub fn put_confirmed(space: &mut [u8], s: &[u8], m: &[u8]) -> usize
    requires m_value { readable layout6_g1 m.now ≡ true }
    requires in_bounds { (14 ≤ length s.now) × (24 ≤ length space.old) }
    ensures { Wrote space.old 0 (confirmed_at s.now m.now) space.new result }
{
    let sender = put_clock(space, b'C', s);
    let end = put_sender(space, sender, m);
    put_byte(space, end, b'\n')
}

// Writes the line of a reception returned with errors.
pub fn put_returned(space: &mut [u8], s: &[u8], m: &[u8], e: Errors) -> usize
    requires m_value { readable layout6_g1 m.now ≡ true }
    requires n_nonzero { (0 < e.n) × (e.n ≤ 16) × (14 ≤ length s.now) × (74 ≤ length space.old) }
    ensures { Wrote space.old 0 (returned_at s.now m.now (listed e)) space.new result }
{
    let sender = put_clock(space, b'R', s);
    let blank = put_sender(space, sender, m);
    let errors = put_byte(space, blank, b' ');
    let end = put_errors(space, errors, e);
    put_byte(space, end, b'\n')
}

// Writes the line of a refused call.
pub fn put_refused(space: &mut [u8], number: u64) -> usize
    requires { 11 ≤ length space.old }
    ensures { Wrote space.old 0 (refused_line number) space.new result }
{
    let start = put(space, 0, b"R ----- ");
    let end = put_digits(space, start, 2, number);
    put_byte(space, end, b'\n')
}
