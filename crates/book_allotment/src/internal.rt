// The one calculation behind the calls by value that allot a tender and that preview it.
ghost use Rattle.book_allotment.specs.Allotted.{AllotsBook};

use book::{Book, amounts_of, cents_of, numbers_of, up_to_64};
use outcomes::internal::allot_bids;
use places::{Amount, Rate};
use refusals::Refusal;
use terms::Terms;

// The awards of all places in book order and the marginal rate.
#[derive(Clone, Copy)]
pub struct BookAllotment {
    pub awards: [Amount; 640],
    pub marginal: Option<Rate>,
}

// Allots to the bids of a book, unless a call's first conditions or condition 16 refuse.
pub fn allot_book(
    first: Result<(), Refusal>,
    terms: Terms,
    book: Book,
) -> Result<BookAllotment, Refusal>
    ensures { AllotsBook first terms book result }
{
    let limits = book.limits;
    let held_rates = book.rates;
    let held_amounts = book.amounts;
    let rates = numbers_of(held_rates);
    let amounts = cents_of(held_amounts);
    let n = up_to_64(book.n);
    let end = 10 * n;
    let mut cents = [0u64; 640];
    let marginal = allot_bids(
        first,
        terms,
        &limits[0..n],
        &rates[0..end],
        &amounts[0..end],
        &mut cents[0..end],
    )?;
    Ok(BookAllotment {
        awards: amounts_of(cents),
        marginal,
    })
}
