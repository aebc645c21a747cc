// The rounds of a share division: a is the bid's amount, m what better rates leave of the offer, and e
// the total at the bid's rate, with m below e and e below 10^18, so that every number stays in 64 bits.
ghost use Rattle.std.specs.Prelude.{◌≡◌, ◌+◌, ◌*◌, ◌/◌, ◌%◌, ◌^◌, ◌<◌, if◌then◌else◌};
ghost use Rattle.rules.specs.Allotment.{binary_length, division_at, division};
ghost use Rattle.division.specs.Rounds.{viewed};

use crate::{Division, binary_length};
use places::Amount;

// How often e goes into t, at most twice, without a division.
fn times(t: u64, e: u64) -> u64
    requires t_bound { t < 3 * e }
    requires e_bound { e < 10 ^ 18 }
    ensures { result ≡ t / e }
{
    u64::from(e <= t) + u64::from(2 * e <= t)
}

// One of two numbers that are both computed already, so that the choice needs no branch.
fn chosen(condition: bool, a: u64, b: u64) -> u64
    ensures { result ≡ (if condition then a else b) }
{
    if condition { a } else { b }
}

// What of t is left when e is taken out of it as often as it goes in. Whether it goes in once is asked as
// `once < t`, because the compiler makes a branch of `e <= t`.
fn left(t: u64, e: u64) -> u64
    requires t_bound { t < 3 * e }
    requires e_bound { e < 10 ^ 18 }
    ensures { result ≡ t % e }
{
    let once = std::num::wrapping_sub_u64(t, e);
    let twice = std::num::wrapping_sub_u64(t, 2 * e);
    chosen(2 * e <= t, twice, chosen(once < t, once, t))
}

// One round, which takes in the next binary digit of a, highest first.
pub fn round(d: Division, a: Amount, m: Amount, e: Amount) -> Division
    requires d_value { viewed d ≡ division_at a.0 m.0 e.0 d.count }
    requires count_bound { d.count < binary_length a.0 }
    requires m_lt_e { m.0 < e.0 }
    requires e_bound { e.0 < 10 ^ 18 }
    ensures { viewed result ≡ division_at a.0 m.0 e.0 (d.count + 1) }
{
    let place = binary_length(a) - (d.count + 1);
    let digit = (a.0 >> place) % 2;
    let rest = 2 * d.remainder.0 + digit * m.0;
    Division {
        quotient: Amount(2 * d.quotient.0 + times(rest, e.0)),
        remainder: Amount(left(rest, e.0)),
        count: d.count + 1,
    }
}

// The whole division, a times m by e: as many rounds as a has binary digits.
pub fn divide(a: Amount, m: Amount, e: Amount) -> Division
    requires m_lt_e { m.0 < e.0 }
    requires e_bound { e.0 < 10 ^ 18 }
    ensures { viewed result ≡ division a.0 m.0 e.0 }
{
    let mut d = Division {
        quotient: Amount(0),
        remainder: Amount(0),
        count: 0,
    };
    for _ in 0..binary_length(a) {
        d = round(d, a, m, e);
    }
    d
}
