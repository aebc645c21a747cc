// The terms of a tender in words that are long enough for one.
ghost use Rattle.std.specs.Prelude.{◌≡◌, map, ◌≤◌, length};
ghost use Rattle.buffer.specs.Words.{tender_words, byte_in, side_in, terms_in};

use crate::narrow;
use announcement::Side;
use places::{Amount, Rate};
use terms::Terms;

// The side of a number.
#[tactic(auto, unfolding(crate::specs::Words::side_in))]
fn side_of(w: u64) -> Side
    ensures { result ≡ side_in w }
{
    match w {
        0 => Side::La,
        _ => Side::Lp,
    }
}

// The identifier of eleven words.
fn identifier_in(words: &[u64]) -> [u8; 11]
    requires { length words.now ≡ 11 }
    ensures { result ≡ map byte_in words.now }
{
    std::array::from_fn(|i| (words[i] % 256) as u8)
}

// The terms of the tender.
pub fn terms_in(words: &[u64]) -> Terms
    requires { tender_words ≤ length words.now }
    ensures { result ≡ terms_in words.now }
{
    Terms {
        identifier: identifier_in(&words[3..14]),
        side: side_of(words[14]),
        execution: words[15],
        cutoff: words[16],
        most: words[17],
        offered: Amount(words[18]),
        minimum: Amount(words[19]),
        increment: Amount(words[20]),
        maximum: Amount(words[21]),
        allocation: Amount(words[22]),
        limit: Rate(narrow(words[23])),
    }
}
