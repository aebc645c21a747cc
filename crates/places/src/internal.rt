// Places read from a field of their length, and written where there is room.
ghost use Rattle.std.specs.Prelude.{◌≡◌, true, ◌&&◌, ◌+◌, ◌*◌, ◌%◌, ◌<◌, ◌≤◌, eqb, length};
ghost use Rattle.output.specs.Output.{Wrote};
ghost use Rattle.words.specs.Words.{low_bytes, all_small, decimal};
ghost use Rattle.places.specs.Bids.{formed_place, place_of, places_of, place_text, places_text, places_fit};

use crate::{Amount, Place, Places, Rate};
use words::internal::{after_slash, all_small, lowered, put_eight, put_seven, value};

// Whether the words of rate, slash and seven digits, and eight digits are those of a place.
fn is_formed(rate: u64, high: u64, low: u64) -> bool
    ensures { result ≡ (eqb (high % 256) 0 && all_small (low_bytes 8 rate) && all_small (low_bytes 8 high) && all_small (low_bytes 8 low)) }
{
    (high % 256 == 0) & all_small(rate) & all_small(high) & all_small(low)
}

// The place that they make.
fn formed_place(rate: u64, high: u64, low: u64) -> Place
    requires rate_value { all_small (low_bytes 8 rate) ≡ true }
    requires high_value { all_small (low_bytes 8 high) ≡ true }
    requires low_value { all_small (low_bytes 8 low) ≡ true }
    ensures { result ≡ formed_place (decimal 0 (low_bytes 8 rate)) (decimal 0 (low_bytes 8 high) * 100000000 + decimal 0 (low_bytes 8 low)) }
{
    Place {
        formed: true,
        rate: Rate(value(rate) as u32),
        amount: Amount(value(high) * 100000000 + value(low)),
    }
}

// The place in 24 characters. Each byte is loaded once, to be tested and to give its digit.
pub fn read_place(s: &[u8]) -> Place
    requires { length s.now ≡ 24 }
    ensures { result ≡ place_of s.now }
{
    let rate = lowered(&s[0..8]);
    let high = after_slash(&s[8..16]);
    let low = lowered(&s[16..24]);
    if is_formed(rate, high, low) {
        formed_place(rate, high, low)
    } else {
        Place {
            formed: false,
            rate: Rate(0),
            amount: Amount(0),
        }
    }
}

// Whether 24 characters are an empty place: the words of one are zeros.
fn is_empty(s: &[u8]) -> bool
    requires { length s.now ≡ 24 }
    ensures { result ≡ true → place_of s.now ≡ formed_place 0 0 }
{
    (lowered(&s[0..8]) == 0) & (after_slash(&s[8..16]) == 0) & (lowered(&s[16..24]) == 0)
}

// The same place, sooner where it is empty, as many places of an application are.
fn read_sooner(s: &[u8]) -> Place
    requires { length s.now ≡ 24 }
    ensures { result ≡ place_of s.now }
{
    if is_empty(s) {
        return Place {
            formed: true,
            rate: Rate(0),
            amount: Amount(0),
        };
    }
    read_place(s)
}

// The ten places of 240 characters.
pub fn read_places(s: &[u8]) -> Places
    requires { length s.now ≡ 240 }
    ensures { result ≡ places_of s.now }
{
    let mut formed = [false; 10];
    let mut rates = [Rate(0); 10];
    let mut amounts = [Amount(0); 10];
    for k in 0..10 {
        let at = 24 * k;
        let p = read_sooner(&s[at..at + 24]);
        formed[k] = p.formed;
        rates[k] = p.rate;
        amounts[k] = p.amount;
    }
    Places {
        formed,
        rates,
        amounts,
    }
}

// Writes one place from an index on and answers the index past it: eight digits, slash and seven
// digits, eight digits. Many places are empty, and of those the amount need not be parted.
pub fn put_place(space: &mut [u8], at: usize, rate: Rate, amount: Amount) -> usize
    requires { (at + 24 ≤ length space.old) × (rate.0 < 100000000) × (amount.0 < 1000000000000000) }
    ensures { Wrote space.old at (place_text rate amount) space.new result × (result ≡ at + 24) }
{
    let slash = put_eight(space, at, rate.0 as u64);
    if amount.0 == 0 {
        let last = put_seven(space, slash, 0);
        return put_eight(space, last, 0);
    }
    let last = put_seven(space, slash, amount.0 / 100000000);
    put_eight(space, last, amount.0 % 100000000)
}

// Writes ten places.
pub fn put_places(space: &mut [u8], at: usize, rates: [Rate; 10], amounts: [Amount; 10]) -> usize
    requires { (at + 240 ≤ length space.old) × (places_fit rates amounts ≡ true) }
    ensures { Wrote space.old at (places_text rates amounts) space.new result × (result ≡ at + 240) }
{
    let mut end = at;
    for k in 0..10 {
        end = put_place(space, end, rates[k], amounts[k]);
    }
    end
}
