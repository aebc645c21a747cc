// Awards below the minimum allocation become zero, in place, and their cents are counted.
ghost use Rattle.std.specs.Prelude.{◌≡◌, ◌≤◌, ◌<◌};
ghost use Rattle.rules.specs.Allotment.{sum};
ghost use Rattle.smallest_award.specs.SmallestAward.{given_award};
ghost use Rattle.dropping.specs.Dropped.{Drops};

use places::Amount;

// An award as it is given.
fn given_award(minimum: Amount, award: u64) -> u64
    ensures { (result ≡ given_award minimum.0 award) × (result ≤ award) }
{
    if award < minimum.0 { 0 } else { award }
}

// Drops what is below the minimum.
fn drop_below(minimum: Amount, awards: &mut [u64]) -> Amount
    requires { sum awards.old < 18446744073709551616 }
    ensures { Drops minimum.0 awards.old result awards.new }
{
    let mut dropped = 0;
    for award in awards.iter_mut() {
        let given = given_award(minimum, *award);
        dropped += *award - given;
        *award = given;
    }
    Amount(dropped)
}

// Drops the awards below the minimum allocation, and gives their cents. No award above zero is below one cent, so that such a minimum costs no pass.
pub fn drop_awards(minimum: Amount, awards: &mut [u64]) -> Amount
    requires { sum awards.old < 18446744073709551616 }
    ensures { Drops minimum.0 awards.old result awards.new }
{
    if minimum.0 <= 1 {
        return Amount(0);
    }
    drop_below(minimum, awards)
}
