// Fields of a message that was found readable, and fields written into a space with room for them.
ghost use Rattle.std.specs.Prelude.{◌≡◌, true, ◌+◌, ◌<◌, ◌≤◌, length, drop};
ghost use Rattle.output.specs.Output.{Wrote};
ghost use Rattle.layout.specs.Fields.{head, field, length_at, offset, content, whole};

// The length that the head of the field at an index gives.
pub fn length_at(m: &[u8], at: usize) -> usize
    requires { at + 3 ≤ length m.now }
    ensures { (result ≡ length_at (drop at m.now)) × (result < 65536) }
{
    m[at + 1] as usize * 256 + m[at + 2] as usize
}

// The index at which field k starts, counted from 0.
pub fn offset_of(m: &[u8], k: usize) -> usize
    requires { whole k m.now ≡ true }
    ensures { result ≡ offset k m.now }
{
    let mut at = 0;
    for _ in 0..k {
        at += 3 + length_at(m, at);
    }
    at
}

// The contents of field k, as a part of m.
pub fn contents(m: &[u8], k: usize) -> &[u8]
    requires { whole k m.now ≡ true }
    ensures { result.now ≡ content k m.now }
{
    let at = offset_of(m, k);
    let n = length_at(m, at);
    &m[at + 3..at + 3 + n]
}

// Writes the head of a field: its tag and its length in two bytes, high byte first.
pub fn put_head(space: &mut [u8], at: usize, tag: u8, n: usize) -> usize
    requires { at + 3 ≤ length space.old }
    ensures { Wrote space.old at (head tag n) space.new result }
{
    let high = output::internal::put_byte(space, at, tag);
    let low = output::internal::put_byte(space, high, (n / 256 % 256) as u8);
    output::internal::put_byte(space, low, (n % 256) as u8)
}

// Writes a field: its head and its contents.
pub fn put_field(space: &mut [u8], at: usize, tag: u8, text: &[u8]) -> usize
    requires { at + 3 + length text.now ≤ length space.old }
    ensures { Wrote space.old at (field tag text.now) space.new result × (result ≡ at + 3 + length text.now) }
{
    let start = put_head(space, at, tag, text.len());
    output::internal::put(space, start, text)
}
