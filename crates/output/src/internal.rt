// Each function writes from an index on and answers the index past what it wrote. The contracts say
// it by one record, Wrote, and writes that follow one another chain by one law.
ghost use Rattle.std.specs.Prelude.{[], ◌∷◌, ◌+◌, ◌<◌, ◌≤◌, length};
ghost use Rattle.output.specs.Output.{Wrote};

// Writes a text. `copy_from_slice` would be compiled to a call of memmove, which the archive for C goes without.
pub fn put(space: &mut [u8], at: usize, text: &[u8]) -> usize
    requires { at + length text.now ≤ length space.old }
    ensures { Wrote space.old at text.now space.new result }
{
    for (j, byte) in text.iter().enumerate() {
        space[at + j] = *byte;
    }
    at + text.len()
}

// Writes one byte.
pub fn put_byte(space: &mut [u8], at: usize, byte: u8) -> usize
    requires { at < length space.old }
    ensures { Wrote space.old at (byte ∷ []) space.new result }
{
    space[at] = byte;
    at + 1
}
