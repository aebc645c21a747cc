// The book of a tender: what is held for each admitted code, in flat arrays.
#![tactic(auto)]

pub mod internal;

ghost use Rattle.std.specs.Prelude.{◌≡◌, ◌++◌, map, length, take, drop};
ghost use Rattle.rules.specs.Receiving.{new_book};
ghost use Rattle.bids.specs.Columns.{cents};
ghost use Rattle.book.specs.Viewed.{hundred_thousandths, amount_of, up_to64, first64, viewed, limits_in, find_from};

use internal::find_in;
use places::{Amount, Rate};

// For each code the time last accepted, whether there is one, its credit limit, and ten places from ten times its index on.
#[derive(Clone, Copy)]
pub struct Book {
    pub codes: [u32; 64],
    pub n: usize,
    pub held: [u64; 64],
    pub has: [bool; 64],
    pub limits: [u64; 64],
    pub rates: [Rate; 640],
    pub amounts: [Amount; 640],
}

// A number, or 64 where it is larger.
pub fn up_to_64(n: usize) -> usize
    ensures { result ≡ up_to64 n }
{
    n.min(64)
}

// Keeps as many items as there is room for; what stands past them stays.
fn keep_first<T: Copy>(kept: &mut [T], items: &[T])
    ensures { kept.new ≡ take (length kept.old) items.now ++ drop (length items.now) kept.old }
{
    let n = items.len().min(kept.len());
    kept[..n].copy_from_slice(&items[..n]);
}

// The book of a newly opened tender, with the first 64 codes and limits and nothing held.
pub fn new_book(codes: &[u32], limits: &[u64]) -> Book
    ensures { (viewed result ≡ new_book (take 64 codes.now)) × (limits_in result ≡ take (up_to64 (length codes.now)) (first64 limits.now)) }
{
    let mut first_codes = [0; 64];
    keep_first(&mut first_codes, codes);
    let mut first_limits = [0; 64];
    keep_first(&mut first_limits, limits);
    Book {
        codes: first_codes,
        n: up_to_64(codes.len()),
        limits: first_limits,
        held: [0u64; 64],
        has: [false; 64],
        rates: [Rate(0); 640],
        amounts: [Amount(0); 640],
    }
}

// The first place in the book where a code stands.
pub fn find(b: Book, code: u64) -> Option<usize>
    ensures { result ≡ find_from (viewed b) code 0 }
{
    let codes = b.codes;
    find_in(&codes, b.n, code)
}

// The numbers of 640 rates, which are lent as a slice; an array of structs cannot be.
pub fn numbers_of(from: [Rate; 640]) -> [u32; 640]
    ensures { result ≡ map hundred_thousandths from }
{
    let mut numbers = [0; 640];
    for i in 0..640 {
        numbers[i] = from[i].0;
    }
    numbers
}

// The eurocents of 640 amounts.
pub fn cents_of(from: [Amount; 640]) -> [u64; 640]
    ensures { result ≡ map cents from }
{
    let mut cents = [0; 640];
    for i in 0..640 {
        cents[i] = from[i].0;
    }
    cents
}

// The amounts of 640 numbers of eurocents, from 640 zeros on: an award for each place.
pub fn amounts_of(cents: [u64; 640]) -> [Amount; 640]
    ensures { result ≡ map amount_of cents }
{
    let mut amounts = [Amount(0); 640];
    for i in 0..640 {
        amounts[i] = Amount(cents[i]);
    }
    amounts
}
