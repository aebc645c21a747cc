// What a host asks of a message. Fields are numbered from 0 in the order of the layout, places from
// 0 to 9; a number out of range has none.
ghost use Rattle.std.specs.Prelude.{◌≡◌};
ghost use Rattle.envelope.specs.Application.{reading_refused};
ghost use Rattle.numbers.specs.ByNumber.{flag, has_field, start_of, field_digits, place_at};
ghost use Rattle.optes.specs.Interface.{answer_number, length_of};
ghost use Rattle.digits.specs.Decimal.{is_number, number_in};
ghost use Rattle.places.specs.Bids.{malformed};

use envelope::application::is_6g1;
use envelope::internal::{
    check_of, cro_of, date_of, place_of, recipient_digits, sender_digits, time_of,
};
use layout::internal::{contents, offset_of};
use places::{Amount, Place, Rate};

// 0 where the message is readable as a 6G1, else 12.
#[unsafe(no_mangle)]
pub extern "C" fn optes_6g1_read(m: &[u8]) -> u32
    ensures { result ≡ answer_number (reading_refused m.now) }
{
    if is_6g1(m) { 0 } else { 12 }
}

// A bool as a number.
fn flag_of(b: bool) -> u32
    ensures { result ≡ flag b }
{
    if b { 1 } else { 0 }
}

// Whether a field of this number is there.
fn field_there(m: &[u8], field: u32) -> bool
    ensures { result ≡ has_field field m.now }
{
    is_6g1(m) & (field < 10)
}

// 1 where the message has a field of this number, else 0.
#[unsafe(no_mangle)]
pub extern "C" fn optes_6g1_has_field(m: &[u8], field: u32) -> u32
    ensures { result ≡ flag (has_field field m.now) }
{
    flag_of(field_there(m, field))
}

// Where the field's bytes start.
#[unsafe(no_mangle)]
pub extern "C" fn optes_6g1_start(m: &[u8], field: u32) -> usize
    ensures { result ≡ start_of field m.now }
{
    if field_there(m, field) {
        offset_of(m, field as usize) + 3
    } else {
        0
    }
}

// How many bytes the field has.
#[unsafe(no_mangle)]
pub extern "C" fn optes_6g1_length(m: &[u8], field: u32) -> usize
    ensures { result ≡ length_of field m.now }
{
    if field_there(m, field) {
        let s = contents(m, field as usize);
        s.len()
    } else {
        0
    }
}

// What a digit field holds, which for sender and recipient is their code; any other field has no number.
fn digits_at(m: &[u8], field: u32) -> Option<u64>
    ensures { result ≡ field_digits field m.now }
{
    if is_6g1(m) {
        return match field {
            1 => sender_digits(m),
            2 => recipient_digits(m),
            3 => cro_of(m),
            4 => date_of(m),
            5 => time_of(m),
            6 => check_of(m),
            _ => None,
        };
    }
    None
}

// 1 where the field has a number, else 0.
#[unsafe(no_mangle)]
pub extern "C" fn optes_6g1_has_number(m: &[u8], field: u32) -> u32
    ensures { result ≡ flag (is_number (field_digits field m.now)) }
{
    flag_of(digits_at(m, field).is_some())
}

// The field's number.
#[unsafe(no_mangle)]
pub extern "C" fn optes_6g1_number(m: &[u8], field: u32) -> u64
    ensures { result ≡ number_in (field_digits field m.now) }
{
    digits_at(m, field).unwrap_or(0)
}

// A place, malformed where the message has none of this number.
fn place_at(m: &[u8], place: u32) -> Place
    ensures { result ≡ place_at place m.now }
{
    if is_6g1(m) {
        if place < 10 {
            return place_of(m, place as usize);
        }
        return no_place();
    }
    no_place()
}

fn no_place() -> Place
    ensures { result ≡ malformed }
{
    Place {
        formed: false,
        rate: Rate(0),
        amount: Amount(0),
    }
}

// 1 where the place has a rate and an amount, else 0.
#[unsafe(no_mangle)]
pub extern "C" fn optes_6g1_has_place(m: &[u8], place: u32) -> u32
    ensures { result ≡ flag (place_at place m.now).formed }
{
    flag_of(place_at(m, place).formed)
}

// The place's rate, in hundred-thousandths of a percent.
#[unsafe(no_mangle)]
pub extern "C" fn optes_6g1_rate(m: &[u8], place: u32) -> u32
    ensures { result ≡ (place_at place m.now).rate.0 }
{
    let rate = place_at(m, place).rate;
    rate.0
}

// The place's amount, in eurocents.
#[unsafe(no_mangle)]
pub extern "C" fn optes_6g1_amount(m: &[u8], place: u32) -> u64
    ensures { result ≡ (place_at place m.now).amount.0 }
{
    let amount = place_at(m, place).amount;
    amount.0
}
