// Numbers as decimal digits in ASCII, in fields of a fixed width.
#![tactic(auto)]

pub mod internal;

ghost use Rattle.std.specs.Prelude.{◌≡◌};
ghost use Rattle.digits.specs.Decimal.{all_digits};

// Whether each byte is a digit. The loop has no branch, so that it runs on many bytes at once.
pub fn all_digits(s: &[u8]) -> bool
    ensures { result ≡ all_digits s.now }
{
    let mut ok = true;
    for b in s {
        ok &= b.is_ascii_digit();
    }
    ok
}
