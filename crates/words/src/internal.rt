// Eight bytes at a time. What gives a number asks for bytes that were found to be 0 to 9, and writing for room.
ghost use Rattle.std.specs.Prelude.{◌≡◌, ℕ, ◌+◌, ◌-◌, ◌%◌, ◌<◌, ◌≤◌, true, List, ◌∷◌, length, take, drop};
ghost use Rattle.output.specs.Output.{Wrote};
ghost use Rattle.digits.specs.Decimal.{digits_of, digits};
ghost use Rattle.words.specs.Words.{low_bytes, all_small, decimal, HoldsDigits, Lowered, AfterSlash};

// Four bytes as half a word, the first lowest.
fn four_bytes(s: &[u8]) -> u64
    requires { length s.now ≡ 4 }
    ensures { (low_bytes 4 result ≡ s.now) × (result < 4294967296) }
{
    u64::from(s[0]) + u64::from(s[1]) * 256 + (u64::from(s[2]) + u64::from(s[3]) * 256) * 65536
}

// Eight bytes as a word, the first lowest. In this shape the compiler makes it one load.
fn eight_bytes(s: &[u8]) -> u64
    requires { length s.now ≡ 8 }
    ensures { low_bytes 8 result ≡ s.now }
{
    four_bytes(&s[0..4]) + four_bytes(&s[4..8]) * 4294967296
}

// Eight bytes as a word, each with '0' taken off: a digit becomes its number, and no other byte
// becomes 0 to 9.
pub fn lowered(s: &[u8]) -> u64
    requires { length s.now ≡ 8 }
    ensures { Lowered s.now result }
{
    eight_bytes(s) ^ 0x3030303030303030
}

// The same of the bytes after the first k, which become 0.
fn lowered_after(s: &[u8], k: usize) -> u64
    requires { (length s.now ≡ 8) × (k < 8) }
    ensures { Lowered (drop k s.now) result }
{
    (eight_bytes(s) ^ 0x3030303030303030) >> (8 * k) << (8 * k)
}

// The same where a slash stands first, which becomes 0.
pub fn after_slash(s: &[u8]) -> u64
    requires { length s.now ≡ 8 }
    ensures { AfterSlash s.now result }
{
    eight_bytes(s) ^ 0x303030303030302F
}

// Whether each byte of a word is 0 to 9: its high half is 0, also after 6 is added to it. Where a byte
// carries into the next one, its own high half is not 0.
pub fn all_small(t: u64) -> bool
    ensures { result ≡ all_small (low_bytes 8 t) }
{
    (t | std::num::wrapping_add_u64(t, 0x0606060606060606)) & 0xF0F0F0F0F0F0F0F0 == 0
}

// The number whose eight digits are the bytes of t, the first lowest.
pub fn value(t: u64) -> u64
    requires { all_small (low_bytes 8 t) ≡ true }
    ensures { result ≡ decimal 0 (low_bytes 8 t) }
{
    let p = (t * 10 + (t >> 8)) & 0x00FF00FF00FF00FF;
    let f = (p * 100 + (p >> 16)) & 0x0000FFFF0000FFFF;
    (f * 10000 + (f >> 32)) & 0xFFFFFFFF
}

// What the bytes hold that a lowered word was made of.
fn held(t: u64) -> Option<u64>
    ensures { (s : List ℕ) → Lowered s t → result ≡ digits_of s }
{
    if all_small(t) { Some(value(t)) } else { None }
}

// What eight bytes hold.
pub fn eight(s: &[u8]) -> Option<u64>
    requires { length s.now ≡ 8 }
    ensures { result ≡ digits_of s.now }
{
    held(lowered(s))
}

// What the bytes after the first k of eight hold.
pub fn last_of_eight(s: &[u8], k: usize) -> Option<u64>
    requires { (length s.now ≡ 8) × (k < 8) }
    ensures { result ≡ digits_of (drop k s.now) }
{
    held(lowered_after(s, k))
}

// The number in up to eight bytes of a text, between two indices of which the second is 8 or more.
pub fn number_at(s: &[u8], from: usize, to: usize) -> Option<u64>
    requires { (from < to) × (to ≤ from + 8) × (8 ≤ to) × (to ≤ length s.now) }
    ensures { result ≡ digits_of (take (to - from) (drop from s.now)) }
{
    last_of_eight(&s[to - 8..to], 8 - (to - from))
}

// The same of nine to sixteen bytes, where the second index is 16 or more.
pub fn long_number_at(s: &[u8], from: usize, to: usize) -> Option<u64>
    requires { (from + 8 < to) × (to ≤ from + 16) × (16 ≤ to) × (to ≤ length s.now) }
    ensures { result ≡ digits_of (take (to - from) (drop from s.now)) }
{
    let high = number_at(s, from, to - 8)?;
    let low = number_at(s, to - 8, to)?;
    Some(high * 100000000 + low)
}

// The word whose bytes are the eight digits of n, the first lowest: n is parted into fours, pairs
// and digits, all of a step at once. Each step subtracts, since the compiler would store the bytes
// of a sum one by one.
fn parted(n: u64) -> u64
    requires { n < 100000000 }
    ensures { HoldsDigits n result }
{
    let f = n * 4294967296 - n / 10000 * 42949672959999;
    let p = f * 65536 - ((f * 10486 >> 20) & 0x0000007F0000007F) * 6553599;
    p * 256 - ((p * 103 >> 10) & 0x000F000F000F000F) * 2559
}

// Writes the eight bytes of a word from an index on, the lowest first, and answers the index past them.
fn put_word(space: &mut [u8], at: usize, t: u64) -> usize
    requires { at + 8 ≤ length space.old }
    ensures { Wrote space.old at (low_bytes 8 t) space.new result × (result ≡ at + 8) }
{
    let mut left = t;
    for i in 0..8 {
        space[at + i] = (left % 256) as u8;
        left /= 256;
    }
    at + 8
}

// Writes a number of up to eight digits as eight.
pub fn put_eight(space: &mut [u8], at: usize, n: u64) -> usize
    requires { (at + 8 ≤ length space.old) × (n < 100000000) }
    ensures { Wrote space.old at (digits 8 n) space.new result × (result ≡ at + 8) }
{
    put_word(space, at, parted(n) + 0x3030303030303030)
}

// Writes a slash and a number of up to seven digits as seven.
pub fn put_seven(space: &mut [u8], at: usize, n: u64) -> usize
    requires { (at + 8 ≤ length space.old) × (n < 10000000) }
    ensures { Wrote space.old at (47 ∷ digits 7 n) space.new result × (result ≡ at + 8) }
{
    put_word(space, at, parted(n) + 0x303030303030302F)
}

// Writes n as w digits, the last eight at once where there are as many.
pub fn put_digits(space: &mut [u8], at: usize, w: usize, n: u64) -> usize
    requires { at + w ≤ length space.old }
    ensures { Wrote space.old at (digits w n) space.new result × (result ≡ at + w) }
{
    if w < 8 {
        return digits::internal::put_digits(space, at, w, n);
    }
    let last = digits::internal::put_digits(space, at, w - 8, n / 100000000);
    put_eight(space, last, n % 100000000)
}

// Writes a text of eight to sixteen bytes: its first eight, and then its last eight, which takes fewer
// stores than each byte by itself.
pub fn put_text(space: &mut [u8], at: usize, text: &[u8]) -> usize
    requires { (8 ≤ length text.now) × (length text.now ≤ 16) × (at + length text.now ≤ length space.old) }
    ensures { Wrote space.old at text.now space.new result }
{
    let n = text.len();
    put_word(space, at, eight_bytes(&text[0..8]));
    put_word(space, at + n - 8, eight_bytes(&text[n - 8..n]))
}
