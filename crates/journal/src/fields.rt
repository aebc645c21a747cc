// The fields of an input.
ghost use Rattle.std.specs.Prelude.{◌≡◌, ◌≤◌, length, drop};
ghost use Rattle.log_rules.specs.Steps.{holds_field};

use layout::internal::length_at;

// Whether a whole field starts at an index.
pub fn holds_field(input: &[u8], at: usize) -> bool
    requires { at ≤ length input.now }
    ensures { result ≡ holds_field (drop at input.now) }
{
    if input.len() - at < 3 {
        return false;
    }
    3 + length_at(input, at) <= input.len() - at
}
