// Errors added one by one; each asks for a free place.
ghost use Rattle.std.specs.Prelude.{◌≡◌, ◌++◌, ◌+◌, ◌<◌, ◌≤◌};
ghost use Rattle.rules.specs.Receiving.{when};
ghost use Rattle.errors.specs.Listed.{named, listed};

use crate::Errors;

// One error more, where bad says so.
pub fn with(e: Errors, bad: bool, code: u16) -> Errors
    requires { e.n < 16 }
    ensures { (listed result ≡ listed e ++ when bad (named code)) × (result.n ≤ e.n + 1) }
{
    if bad {
        let mut next = e;
        next.codes[e.n] = code;
        next.n += 1;
        return next;
    }
    e
}
