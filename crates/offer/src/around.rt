// What stands around a rate.
ghost use Rattle.std.specs.Prelude.{◌+◌, ◌≤◌};

use places::Amount;

// The totals at rates better than one, and at it. Together they are within what condition 16 allows.
#[derive(Clone, Copy)]
pub struct Totals {
    pub better: Amount,
    pub equal: Amount,
    ghost within: { better.0 + equal.0 ≤ 999999999999999999 },
}
