// One code's place in the book: where it stands, whether it takes a message, and what it holds after one.
ghost use Rattle.std.specs.Prelude.{◌≡◌, ◌==◌, ◌*◌, ◌<◌, length, position};
ghost use Rattle.bids.specs.Columns.{bids_from};
ghost use Rattle.book.specs.declared.Book.{Book};
ghost use Rattle.book.specs.Viewed.{viewed, limits_in, find_from, index_of, taken_at, replaced};

use crate::{Book, up_to_64};
use places::{Amount, Rate};

// Where a code first stands among these.
fn position_of(codes: &[u32], code: u64) -> Option<usize>
    ensures { result ≡ position (λ c. c == code) codes.now }
{
    codes.iter().position(|c| u64::from(*c) == code)
}

// The first place where a code stands, of a book with these codes, so many of which are admitted.
pub fn find_in(codes: &[u32], n: usize, code: u64) -> Option<usize>
    requires { length codes.now ≡ 64 }
    ensures { (b : Book) → b.codes ≡ codes.now → b.n ≡ n → result ≡ find_from (viewed b) code 0 }
{
    position_of(&codes[..up_to_64(n)], code)
}

// Whether the entry found holds nothing, or a time before this one, in a book with these times and flags.
pub fn takes_at<'a>(held: &'a [u64], has: &'a [bool], found: Option<usize>, time: u64) -> bool
    requires { (length held.now ≡ 64) × (length has.now ≡ 64) × (index_of found < 64) }
    ensures { (b : Book) → b.held ≡ held.now → b.has ≡ has.now → result ≡ taken_at b found time }
{
    match found {
        Some(at) => !has[at] | (held[at] < time),
        None => false,
    }
}

// The book that holds this time and these ten places at an index.
pub fn hold(b: Book, at: usize, time: u64, rates: [Rate; 10], amounts: [Amount; 10]) -> Book
    requires { at < 64 }
    ensures { (viewed result ≡ replaced (viewed b) at time (bids_from rates amounts 0 10)) × (limits_in result ≡ limits_in b) }
{
    let mut held = b.held;
    held[at] = time;
    let mut has = b.has;
    has[at] = true;
    let mut rs = b.rates;
    let mut xs = b.amounts;
    let base = 10 * at;
    rs[base..base + 10].copy_from_slice(&rates);
    xs[base..base + 10].copy_from_slice(&amounts);
    let codes = b.codes;
    let limits = b.limits;
    Book {
        codes,
        n: b.n,
        limits,
        held,
        has,
        rates: rs,
        amounts: xs,
    }
}
