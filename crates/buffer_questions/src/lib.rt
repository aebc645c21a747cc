// Questions about a tender in the words of a buffer, which change none of them.
#![tactic(auto)]

pub mod internal;

ghost use Rattle.std.specs.Prelude.{◌≡◌, ◌≤◌, ◌<◌, length, take};
ghost use Rattle.rules.specs.Opening.{rising};
ghost use Rattle.buffer.specs.Words.{is_tender};

// Whether the first n codes rise strictly, two of them a turn: a loop that only collects the tests is compiled
// to one that takes twice the time.
fn codes_rise(codes: &[u64], n: usize) -> bool
    requires { (0 < n) × (n ≤ length codes.now) }
    ensures { result ≡ rising (take n codes.now) }
{
    let mut i = 1;
    while i + 1 < n {
        if codes[i - 1] < codes[i] {
            if codes[i] < codes[i + 1] {
                i += 2;
            } else {
                return false;
            }
        } else {
            return false;
        }
    }
    if i < n {
        return codes[i - 1] < codes[i];
    }
    true
}

// Whether words hold a tender.
pub fn is_tender(words: &[u64]) -> bool
    ensures { result ≡ is_tender words.now }
{
    if words.len() < 1560 {
        return false;
    }
    let n = words[2];
    if n == 0 {
        return false;
    }
    if 64 < n {
        return false;
    }
    (words[0] == 2) & (words[1] < 4) & codes_rise(&words[24..88], n as usize)
}
