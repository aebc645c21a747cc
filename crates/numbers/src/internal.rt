// The numbers of a readable 6G1, stored one after the other.
ghost use Rattle.std.specs.Prelude.{◌≡◌, true, [], ◌∷◌, map, ℕ, ◌+◌, ◌≤◌, ◌<◌, length, set};
ghost use Rattle.output.specs.Output.{Wrote};
ghost use Rattle.layout.specs.Fields.{readable};
ghost use Rattle.envelope.specs.Application.{layout6_g1};
ghost use Rattle.numbers.specs.Numbers.{digit_numbers, place_numbers, places_numbers, text_starts, address_numbers, addresses_numbers, numbers_of, in_array};
ghost use Rattle.numbers.specs.Codes.{codes_numbers, last_numbers};

use addresses::{Address, text_start};
use envelope::application::Field;
use envelope::internal::{
    both_short, check_of, cro_of, date_of, place_of, recipient_digits, recipient_of, sender_digits,
    sender_of, start_of, time_of,
};
use places::Place;

// Writes one number.
pub fn put(numbers: &mut [u64], at: usize, n: u64) -> usize
    requires { at < length numbers.old }
    ensures { Wrote numbers.old at (n ∷ []) numbers.new result }
{
    numbers[at] = n;
    at + 1
}

// Writes three numbers.
pub fn put_three(numbers: &mut [u64], at: usize, a: u64, b: u64, c: u64) -> usize
    requires { at + 3 ≤ length numbers.old }
    ensures { Wrote numbers.old at (a ∷ b ∷ c ∷ []) numbers.new result }
{
    let second = put(numbers, at, a);
    let third = put(numbers, second, b);
    put(numbers, third, c)
}

// Writes the number of each item, one after the other.
pub fn put_each<T: Copy, F: Fn(T) -> u64>(
    words: &mut [u64],
    at: usize,
    items: &[T],
    number: F,
) -> usize
    requires room { at + length items.now ≤ length words.old }
    requires callable { F.IsAlwaysCallable number }
    ensures past { result ≡ at + length items.now }
    // Whatever function gives the numbers, its numbers of the items are written.
    ensures wrote { (f : T → ℕ) → ((item : T) (n : ℕ) → F.post number item n → n ≡ f item) → Wrote words.old at (map f items.now) words.new result }
{
    let mut end = at;
    for item in items {
        end = put(words, end, number(*item));
    }
    end
}

// Writes the number of a digit field and whether it has one.
fn put_number(numbers: &mut [u64], at: usize, d: Option<u64>) -> usize
    requires { at + 2 ≤ length numbers.old }
    ensures { Wrote numbers.old at (digit_numbers d) numbers.new result × (result ≡ at + 2) }
{
    let flag = put(numbers, at, d.unwrap_or(0));
    put(numbers, flag, u64::from(d.is_some()))
}

// Writes the codes of sender and recipient.
fn put_codes(numbers: &mut [u64], m: &[u8]) -> usize
    requires { (readable layout6_g1 m.now ≡ true) × (4 ≤ length numbers.old) }
    ensures { Wrote numbers.old 0 (codes_numbers m.now) numbers.new result × (result ≡ 4) }
{
    let recipient = put_number(numbers, 0, sender_digits(m));
    put_number(numbers, recipient, recipient_digits(m))
}

// Writes the numbers of the four digit fields after them.
fn put_fields(numbers: &mut [u64], at: usize, m: &[u8]) -> usize
    requires { (readable layout6_g1 m.now ≡ true) × (at + 8 ≤ length numbers.old) }
    ensures { Wrote numbers.old at (last_numbers m.now) numbers.new result × (result ≡ at + 8) }
{
    let date = put_number(numbers, at, cro_of(m));
    let time = put_number(numbers, date, date_of(m));
    let check = put_number(numbers, time, time_of(m));
    put_number(numbers, check, check_of(m))
}

// Writes the numbers of a place and whether it is well formed.
fn put_place(numbers: &mut [u64], at: usize, p: Place) -> usize
    requires { at + 3 ≤ length numbers.old }
    ensures { Wrote numbers.old at (place_numbers p) numbers.new result × (result ≡ at + 3) }
{
    let rate = p.rate;
    let amount = p.amount;
    put_three(
        numbers,
        at,
        u64::from(rate.0),
        amount.0,
        u64::from(p.formed),
    )
}

// Writes the numbers of the ten places.
fn put_places(numbers: &mut [u64], at: usize, m: &[u8]) -> usize
    requires { (readable layout6_g1 m.now ≡ true) × (at + 30 ≤ length numbers.old) }
    ensures { Wrote numbers.old at (places_numbers 10 m.now) numbers.new result × (result ≡ at + 30) }
{
    let mut end = at;
    for k in 0..10 {
        end = put_place(numbers, end, place_of(m, k));
    }
    end
}

// Writes where type, identifier and name start.
fn put_starts(numbers: &mut [u64], at: usize, m: &[u8]) -> usize
    requires { (readable layout6_g1 m.now ≡ true) × (at + 3 ≤ length numbers.old) }
    ensures { Wrote numbers.old at (text_starts m.now) numbers.new result × (result ≡ at + 3) }
{
    let kind = start_of(m, Field::MessageType);
    let identifier = start_of(m, Field::Identifier);
    let name = start_of(m, Field::Name);
    put_three(numbers, at, kind as u64, identifier as u64, name as u64)
}

// Writes what a long form has besides its code.
fn put_address(numbers: &mut [u64], at: usize, a: Address, text: u64) -> usize
    requires { at + 3 ≤ length numbers.old }
    ensures { Wrote numbers.old at (address_numbers a text) numbers.new result × (result ≡ at + 3) }
{
    match a {
        Address::Malformed => put_three(numbers, at, 0, 0, 0),
        Address::Code(_) => put_three(numbers, at, 0, 0, 0),
        Address::Branch(_, branch, _, _) => put_three(numbers, at, 1, branch, text),
    }
}

// Writes that of sender and recipient.
fn put_addresses(numbers: &mut [u64], at: usize, m: &[u8]) -> usize
    requires { (readable layout6_g1 m.now ≡ true) × (at + 6 ≤ length numbers.old) }
    ensures { Wrote numbers.old at (addresses_numbers m.now) numbers.new result }
{
    if both_short(m) {
        let recipient = put_three(numbers, at, 0, 0, 0);
        return put_three(numbers, recipient, 0, 0, 0);
    }
    let from = start_of(m, Field::Sender) + text_start();
    let to = start_of(m, Field::Recipient) + text_start();
    let recipient = put_address(numbers, at, sender_of(m), from as u64);
    put_address(numbers, recipient, recipient_of(m), to as u64)
}

// Writes all numbers of a message.
pub fn put_all(numbers: &mut [u64], m: &[u8]) -> usize
    requires { (readable layout6_g1 m.now ≡ true) × (51 ≤ length numbers.old) }
    ensures { Wrote numbers.old 0 (numbers_of m.now) numbers.new result }
{
    let fields = put_codes(numbers, m);
    let places = put_fields(numbers, fields, m);
    let starts = put_places(numbers, places, m);
    let addresses = put_starts(numbers, starts, m);
    put_addresses(numbers, addresses, m)
}

// Stores a number where the array has room for it.
fn put_if_room(numbers: &mut [u64], at: usize, n: u64)
    ensures { numbers.new ≡ set numbers.old at n }
{
    if at < numbers.len() {
        numbers[at] = n;
    }
}

// Stores as many numbers as the array has room for. A loop that ends with the array would be
// compiled to a call of memcpy, and the archive for C needs nothing from elsewhere.
pub fn put_first(numbers: &mut [u64], all: &[u64])
    ensures { numbers.new ≡ in_array all.now numbers.old }
{
    for (k, n) in all.iter().enumerate() {
        put_if_room(numbers, k, *n);
    }
}
