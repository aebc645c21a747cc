// The line that says where the log ended and why, written into a space with room for it.
ghost use Rattle.std.specs.Prelude.{◌≡◌, ◌+◌, ◌≤◌, ◌<◌, length};
ghost use Rattle.output.specs.Output.{Wrote};
ghost use Rattle.endings.specs.Endings.{missing_text, length_text, tag_text, field_text, is_tag, why_text, ending_text};

use crate::text::{put_decimal, put_hex};
use layout::internal::length_at;
use output::internal::{put, put_byte};

// Writes that so many bytes of a field are missing.
fn put_missing(space: &mut [u8], at: usize, n: u64) -> usize
    requires { at + 64 ≤ length space.old }
    ensures { Wrote space.old at (missing_text n) space.new result × (result ≤ at + 64) }
{
    if n == 1 {
        return put(space, at, b"1 byte of a field is missing");
    }
    let end = put_decimal(space, at, n);
    put(space, end, b" bytes of a field are missing")
}

// Writes the length of a field, and after it what the length must be.
fn put_length(space: &mut [u8], at: usize, tag: u8, n: u64, limit: &[u8]) -> usize
    requires { (at + 64 ≤ length space.old) × (length limit.now ≤ 18) }
    ensures { Wrote space.old at (length_text tag n limit.now) space.new result × (result ≤ at + 64) }
{
    let name = put(space, at, b"the length of field ");
    let is = put_hex(space, name, tag);
    let number = put(space, is, b" is ");
    let end = put_decimal(space, number, n);
    put(space, end, limit)
}

// Writes that a tag is none of a session.
fn put_tag(space: &mut [u8], at: usize, tag: u8) -> usize
    requires { at + 64 ≤ length space.old }
    ensures { Wrote space.old at (tag_text tag) space.new result × (result ≤ at + 64) }
{
    let name = put(space, at, b"tag ");
    let end = put_hex(space, name, tag);
    put(space, end, b" is none of a session")
}

// Writes why a whole field of this tag and length ends the log.
fn put_field_why(space: &mut [u8], at: usize, tag: u8, n: u64) -> usize
    requires { at + 64 ≤ length space.old }
    ensures { Wrote space.old at (field_text tag n) space.new result × (result ≤ at + 64) }
{
    match tag {
        0xA0 => put(space, at, b"field A0 is not groups of five digits"),
        0xA2 => put_length(space, at, tag, n, b", less than 14"),
        0xA3 => put_length(space, at, tag, n, b", not 14"),
        0xA4 => put_length(space, at, tag, n, b", not 0"),
        0xA5 => put_length(space, at, tag, n, b", not 0"),
        _ => put_tag(space, at, tag),
    }
}

// Whether a tag is one of a session.
fn is_tag(tag: u8) -> bool
    ensures { result ≡ is_tag tag }
{
    (0xA0 <= tag) & (tag <= 0xA5)
}

// Writes why the log ended before what is left, of which the first byte is a tag.
fn put_why(space: &mut [u8], at: usize, left: &[u8]) -> usize
    requires { (at + 64 ≤ length space.old) × (1 ≤ length left.now) }
    ensures { Wrote space.old at (why_text left.now) space.new result × (result ≤ at + 64) }
{
    if !is_tag(left[0]) {
        return put_tag(space, at, left[0]);
    }
    if left.len() < 3 {
        return put(space, at, b"the length of a field is cut off");
    }
    let n = length_at(left, 0);
    if left.len() < 3 + n {
        return put_missing(space, at, (3 + n - left.len()) as u64);
    }
    put_field_why(space, at, left[0], n as u64)
}

// Writes the line for an offset in the session and what is left from there on.
pub fn put_ending(space: &mut [u8], at: u64, left: &[u8]) -> usize
    requires { (128 ≤ length space.old) × (1 ≤ length left.now) }
    ensures { Wrote space.old 0 (ending_text at left.now) space.new result × (result ≤ 128) }
{
    let number = put(space, 0, b"session_log: ended at byte ");
    let colon = put_decimal(space, number, at);
    let why = put(space, colon, b": ");
    let end = put_why(space, why, left);
    put_byte(space, end, b'\n')
}
