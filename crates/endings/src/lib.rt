// Where the log of a session ended, and why.
#![tactic(auto)]

pub mod internal;
mod text;

ghost use Rattle.std.specs.Prelude.{◌≡◌, ◌+◌, ◌≤◌, length, drop, is_some, IfSome};
ghost use Rattle.layout.specs.Fields.{length_at};
ghost use Rattle.endings.specs.Endings.{ends_log, goes_on, left_of};

use digits::all_digits;
use layout::internal::length_at;

// Whether a field of this tag and contents ends the log.
pub fn ends_log(tag: u8, s: &[u8]) -> bool
    ensures { result ≡ ends_log tag s.now }
{
    match tag {
        0xA0 => !((s.len() % 5 == 0) & all_digits(s)),
        0xA1 => false,
        0xA2 => s.len() < 14,
        0xA3 => s.len() != 14,
        0xA4 => s.len() != 0,
        0xA5 => s.len() != 0,
        _ => true,
    }
}

// The index past the whole field that starts at an index, if the log goes on there.
fn past_field(input: &[u8], at: usize) -> Option<usize>
    requires { at ≤ length input.now }
    ensures whether { is_some result ≡ goes_on (drop at input.now) }
    ensures end { IfSome result (λ end. (end ≡ at + 3 + length_at (drop at input.now)) × (end ≤ length input.now)) }
{
    if input.len() - at < 3 {
        return None;
    }
    let end = at + 3 + length_at(input, at);
    if input.len() < end {
        return None;
    }
    if ends_log(input[at], &input[at + 3..end]) {
        return None;
    }
    Some(end)
}

// The index from which on the input is left: that of the first field that is not whole or ends the log.
pub fn left_at(input: &[u8]) -> usize
    ensures { (drop result input.now ≡ left_of input.now) × (result ≤ length input.now) }
{
    let mut at = 0;
    // A while, since there is no index to count: it goes on while there is a next field.
    while let Some(end) = past_field(input, at) {
        at = end;
    }
    at
}
