// The one calculation behind the calls in place that allot a tender and that preview it, and the preview.
ghost use Rattle.std.specs.Prelude.{◌≡◌, true, map, ◌≤◌, length, take, replicate};
ghost use Rattle.buffer.specs.Words.{tender_words, part, low32, is_tender};
ghost use Rattle.buffer_allotment.specs.Allotted.{AllotsWords, PreviewsIn};

use book::up_to_64;
use buffer::internal::terms_in;
use buffer::{narrow, state_of};
use outcomes::internal::allot_bids;
use places::Rate;
use refusals::{Refusal, ended_refusal};

// The rates of the first places.
fn rates_in(words: &[u64], end: usize) -> [u32; 640]
    requires { (tender_words ≤ length words.now) × (end ≤ 640) }
    ensures { take end result ≡ take end (map low32 (part 216 640 words.now)) }
{
    let mut rates = [0; 640];
    for i in 0..end {
        rates[i] = narrow(words[216 + i]);
    }
    rates
}

// Allots to the bids in the book, unless a call's first conditions or condition 16 refuse; the awards are zeros before.
pub fn awards_in(
    words: &[u64],
    first: Result<(), Refusal>,
    awards: &mut [u64],
) -> Result<Option<Rate>, Refusal>
    requires { (is_tender words.now ≡ true) × (awards.old ≡ replicate 640 0) }
    ensures { AllotsWords words.now first result awards.new }
{
    let n = up_to_64(words[2] as usize);
    let end = 10 * n;
    let rates = rates_in(words, end);
    let terms = terms_in(words);
    allot_bids(
        first,
        terms,
        &words[1496..1496 + n],
        &rates[0..end],
        &words[856..856 + end],
        &mut awards[0..end],
    )
}

// What closing and allotting would give, or allotting where the tender is closed already; the awards are zeros before.
pub fn preview_in(words: &[u64], awards: &mut [u64]) -> Result<Option<Rate>, Refusal>
    requires { (is_tender words.now ≡ true) × (awards.old ≡ replicate 640 0) }
    ensures { PreviewsIn words.now result awards.new }
{
    let state = state_of(words[1]);
    awards_in(words, ended_refusal(state), awards)
}
