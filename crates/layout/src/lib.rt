// A message as the fields of a layout: each a tag, a length and contents.
#![tactic(auto)]

pub mod internal;

ghost use Rattle.std.specs.Prelude.{◌≡◌, ◌≤◌, length, drop};
ghost use Rattle.layout.specs.Fields.{entry, layout_of, starts, readable};

use internal::length_at;

// Whether a whole field with this tag and one of these lengths starts at an index of m. The length is
// compared first, so that the compiler knows whether the field is within m where it knows m's length.
fn starts_at(m: &[u8], at: usize, tag: u8, short: u8, long: u8) -> bool
    requires { at ≤ length m.now }
    ensures { result ≡ starts (entry tag short long) (drop at m.now) }
{
    if m.len() - at < 3 {
        return false;
    }
    if m[at] != tag {
        return false;
    }
    let n = length_at(m, at);
    if (n == short as usize) | (n == long as usize) {
        3 + n <= m.len() - at
    } else {
        false
    }
}

// Whether m is the fields of a layout, in order, and nothing more. The layout is three bytes for
// each field: its tag and the two lengths that it may have, twice the same where it has one.
pub fn readable(layout: &[u8], m: &[u8]) -> bool
    ensures { result ≡ readable (layout_of layout.now) m.now }
{
    let mut at = 0;
    for field in layout.chunks_exact(3) {
        if !starts_at(m, at, field[0], field[1], field[2]) {
            return false;
        }
        at += 3 + length_at(m, at);
    }
    at == m.len()
}
