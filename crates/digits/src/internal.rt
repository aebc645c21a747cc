// Digits of a width, read and written. Reading asks for at most 19 bytes, whose number fits, and
// writing for room.
ghost use Rattle.std.specs.Prelude.{◌≡◌, true, ◌+◌, ◌<◌, ◌≤◌, length};
ghost use Rattle.output.specs.Output.{Wrote};
ghost use Rattle.digits.specs.Decimal.{all_digits, number_of, digits_of, digits};

use crate::all_digits;

// The number that digits make.
fn value(s: &[u8]) -> u64
    requires s_len_bound { length s.now ≤ 19 }
    requires s_value { all_digits s.now ≡ true }
    ensures { result ≡ number_of s.now }
{
    let mut n = 0;
    for &b in s {
        n = n * 10 + u64::from(b - b'0');
    }
    n
}

// What a field of digits holds. The bytes are tested first, so that the value is plain arithmetic.
pub fn number(s: &[u8]) -> Option<u64>
    requires { length s.now ≤ 19 }
    ensures { result ≡ digits_of s.now }
{
    if all_digits(s) { Some(value(s)) } else { None }
}

// Writes the last digits of n over the whole of a part.
fn fill(part: &mut [u8], n: u64)
    ensures { part.new ≡ digits (length part.old) n }
{
    let mut rest = n;
    for i in (0..part.len()).rev() {
        part[i] = b'0' + (rest % 10) as u8;
        rest /= 10;
    }
}

// Writes n as w digits from an index on and answers the index past them.
pub fn put_digits(space: &mut [u8], at: usize, w: usize, n: u64) -> usize
    requires { at + w ≤ length space.old }
    ensures { Wrote space.old at (digits w n) space.new result × (result ≡ at + w) }
{
    let end = at + w;
    fill(&mut space[at..end], n);
    end
}
