// Credit limits on investments: who is capped, and the bids cut to the limits.
#![tactic(auto)]

pub mod internal;

ghost use Rattle.std.specs.Prelude.{◌≡◌};
ghost use Rattle.rules.specs.Cuts.{is_capped};
ghost use Rattle.rules.specs.Opening.{any};
ghost use Rattle.offer.specs.Viewed.{viewed};

use announcement::Side;
use offer::Offer;

// Whether a limit caps: the Treasury invests and the limit is not zero.
pub fn is_capped(o: Offer, cap: u64) -> bool
    ensures { result ≡ is_capped (viewed o) cap }
{
    let side = o.side;
    match side {
        Side::La => false,
        Side::Lp => cap != 0,
    }
}

// Whether any of the limits caps.
pub fn any_capped(o: Offer, limits: &[u64]) -> bool
    ensures { result ≡ any (is_capped (viewed o)) limits.now }
{
    let mut found = false;
    for limit in limits {
        found |= is_capped(o, *limit);
    }
    found
}
