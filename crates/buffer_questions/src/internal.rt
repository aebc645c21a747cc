// The words of a tender told as numbers. The functions ask for words that hold one; a call that a maker
// makes tests them first.
ghost use Rattle.std.specs.Prelude.{◌≡◌, true, cond, ◌∷◌, map, ◌+◌, ◌≤◌, ◌<◌, ltb, length, take, get_or};
ghost use Rattle.std.proofs.Math.Option.{none, some};
ghost use Rattle.output.specs.Output.{Wrote};
ghost use Rattle.numbers.specs.Numbers.{in_array};
ghost use Rattle.book.specs.Viewed.{entry_at};
ghost use Rattle.buffer.specs.Words.{tender_words, part, low32, terms_in, book_in, tender_in, is_tender, terms_numbers};
ghost use Rattle.buffer_questions.specs.Told.{counted_numbers, entry_of, time_numbers, held_numbers};

use buffer::internal::terms_in;
use buffer::narrow;
use buffer_opening::internal::put_terms;
use buffer_search::internal::find;
use numbers::internal::{put, put_each, put_first, put_three};

// Tells as many of the 21 numbers of the terms as the array has room for.
pub fn tell_terms(words: &[u64], told: &mut [u64])
    requires { tender_words ≤ length words.now }
    ensures { told.new ≡ in_array (terms_numbers (terms_in words.now)) told.old }
{
    let mut all = [0; 21];
    put_terms(&mut all, 0, terms_in(words));
    put_first(told, &all);
}

// Tells how many codes are admitted and a word for each of them, from an index on, as many of the 65 numbers as the array has room for.
fn tell_column(words: &[u64], from: usize, told: &mut [u64])
    requires { (is_tender words.now ≡ true) × (from + 64 ≤ tender_words) }
    ensures { told.new ≡ in_array (counted_numbers (take (get_or words.now 2 0) (part from 64 words.now))) told.old }
{
    let n = words[2] as usize;
    let mut all = [0; 65];
    let column_at = put(&mut all, 0, words[2]);
    put_each(&mut all, column_at, &words[from..from + n], u64::from);
    put_first(told, &all);
}

// Tells the admitted codes.
pub fn tell_codes(words: &[u64], told: &mut [u64])
    requires { is_tender words.now ≡ true }
    ensures { told.new ≡ in_array (counted_numbers (tender_in words.now).terms.admission.codes) told.old }
{
    tell_column(words, 24, told);
}

// Tells their limits.
pub fn tell_limits(words: &[u64], told: &mut [u64])
    requires { is_tender words.now ≡ true }
    ensures { told.new ≡ in_array (counted_numbers (tender_in words.now).terms.admission.limits) told.old }
{
    tell_column(words, 1496, told);
}

// Writes that a code is admitted, and the time that it holds, if its flag is not 0.
fn put_time(numbers: &mut [u64], flag: u64, time: u64) -> usize
    requires { 3 ≤ length numbers.old }
    ensures { Wrote numbers.old 0 (1 ∷ time_numbers (cond (ltb 0 flag) (some time) none)) numbers.new result × (result ≡ 3) }
{
    if flag == 0 {
        return put_three(numbers, 0, 1, 0, 0);
    }
    put_three(numbers, 0, 1, 1, time)
}

// Writes what is held for the code at an index.
fn put_held(numbers: &mut [u64], words: &[u64], at: usize) -> usize
    requires { (23 ≤ length numbers.old) × (tender_words ≤ length words.now) × (at < 64) }
    ensures { Wrote numbers.old 0 (held_numbers (some (entry_at (book_in words.now) at))) numbers.new result × (result ≡ 23) }
{
    let places = 10 * at;
    let rates_at = put_time(numbers, words[152 + at], words[88 + at]);
    let rates = &words[216 + places..226 + places];
    let amounts_at = put_each(numbers, rates_at, rates, |word| u64::from(narrow(word)));
    let amounts = &words[856 + places..866 + places];
    put_each(numbers, amounts_at, amounts, u64::from)
}

// Tells what is held for a code, as many of the 23 numbers as the array has room for.
pub fn tell_held(words: &[u64], code: u64, told: &mut [u64])
    requires { is_tender words.now ≡ true }
    ensures { told.new ≡ in_array (held_numbers (entry_of (tender_in words.now).book code)) told.old }
{
    let mut all = [0; 23];
    if let Some(at) = find(words, code) {
        put_held(&mut all, words, at);
    }
    put_first(told, &all);
}
