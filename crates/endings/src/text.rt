// Numbers and tags written into a lent space.
ghost use Rattle.std.specs.Prelude.{◌≡◌, ◌+◌, ◌≤◌, ◌<◌, ◌==◌, not, position, length, drop};
ghost use Rattle.output.specs.Output.{Wrote};
ghost use Rattle.endings.specs.Endings.{no_zeros, decimal, hex_digit, hex_text};

use digits::internal::put_digits;
use output::internal::{put, put_byte};

// The index of the first digit that is no zero.
fn first_other(s: &[u8]) -> Option<usize>
    ensures { result ≡ position (λ b. not (b == 48)) s.now }
{
    s.iter().position(|&b| b != b'0')
}

// The index past the zeros in front; the last digit stays.
fn past_zeros(s: &[u8]) -> usize
    requires { 0 < length s.now }
    ensures { (drop result s.now ≡ no_zeros s.now) × (result < length s.now) }
{
    first_other(s).unwrap_or(s.len() - 1)
}

// Writes a number in decimal digits without zeros in front.
pub fn put_decimal(space: &mut [u8], at: usize, n: u64) -> usize
    requires { at + 20 ≤ length space.old }
    ensures { Wrote space.old at (decimal n) space.new result × (result ≤ at + 20) }
{
    let mut text = [0u8; 20];
    put_digits(&mut text, 0, 20, n);
    let first = past_zeros(&text);
    put(space, at, &text[first..20])
}

fn hex_digit(d: u8) -> u8
    requires { d < 16 }
    ensures { result ≡ hex_digit d }
{
    if d < 10 { 48 + d } else { 55 + d }
}

// Writes a byte as two hexadecimal digits.
pub fn put_hex(space: &mut [u8], at: usize, byte: u8) -> usize
    requires { at + 2 ≤ length space.old }
    ensures { Wrote space.old at (hex_text byte) space.new result × (result ≡ at + 2) }
{
    let second = put_byte(space, at, hex_digit(byte / 16));
    put_byte(space, second, hex_digit(byte % 16))
}
