// The clock and the codes in the contents of a field that is long enough for them.
ghost use Rattle.std.specs.Prelude.{◌≡◌, true, ◌+◌, ◌*◌, ◌≤◌, length, take, drop};
ghost use Rattle.digits.specs.Decimal.{all_digits};
ghost use Rattle.log_rules.specs.Steps.{date_of, time_of};
ghost use Rattle.session_fields.specs.Codes.{group_code, codes_from};

use digits::internal::number;
use words::internal::{eight, last_of_eight};

// The code that five digits from an index on make.
fn code_at(s: &[u8], at: usize) -> u32
    requires at_in_bounds { at + 5 ≤ length s.now }
    requires s_value { all_digits s.now ≡ true }
    ensures { result ≡ group_code (take 5 (drop at s.now)) }
{
    number(&s[at..at + 5]).unwrap_or(0) as u32
}

// The first n codes of digits.
pub fn codes_in(s: &[u8], n: usize) -> [u32; 65]
    requires n_bound { (n ≤ 65) × (5 * n ≤ length s.now) }
    requires s_value { all_digits s.now ≡ true }
    ensures { (take n result ≡ codes_from n s.now) × (length result ≡ 65) }
{
    let mut codes = [0u32; 65];
    for i in 0..n {
        codes[i] = code_at(s, 5 * i);
    }
    codes
}

// The date that a field begins with; zero, which is none, where the clock is not digits.
pub fn date_of(s: &[u8]) -> u64
    requires { 14 ≤ length s.now }
    ensures { result ≡ date_of s.now }
{
    if last_of_eight(&s[6..14], 2).is_some() {
        return eight(&s[0..8]).unwrap_or(0);
    }
    0
}

// The time after the date.
pub fn time_of(s: &[u8]) -> u64
    requires { 14 ≤ length s.now }
    ensures { result ≡ time_of s.now }
{
    last_of_eight(&s[6..14], 2).unwrap_or(0)
}
