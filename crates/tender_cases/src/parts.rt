// Parts of a text, and the numbers that they are.
ghost use Rattle.std.specs.Prelude.{◌<◌, ◌≤◌, length};

// The bytes of a text from one index to another, or none where there are no such.
pub fn part(text: &[u8], from: usize, to: usize) -> &[u8] {
    if from <= to {
        if to <= text.len() {
            return &text[from..to];
        }
    }
    &text[0..0]
}

// The bytes of a text from an index on.
pub fn rest(text: &[u8], from: usize) -> &[u8] {
    part(text, from, text.len())
}

// A number of at most fifteen digits, 0 where it is none.
pub fn number(text: &[u8]) -> u64 {
    if text.len() <= 15 {
        return digits::internal::number(text).unwrap_or(0);
    }
    0
}

// The first byte of a text, 0 where there is none.
pub fn initial(text: &[u8]) -> u8 {
    if 0 < text.len() { text[0] } else { 0 }
}

// Where the line that begins at an index ends.
pub fn line_end(text: &[u8], from: usize) -> usize
    requires { from < length text.now }
    ensures { (from ≤ result) × (result < length text.now) }
{
    match text[from..].iter().position(|&b| b == b'\n') {
        Some(at) => from + at,
        None => text.len() - 1,
    }
}
