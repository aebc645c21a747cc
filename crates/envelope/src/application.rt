// A 6G1, the application: read from bytes and written from numbers and texts.
ghost use Rattle.std.specs.Prelude.{◌≡◌, true, ◌+◌, ◌<◌, ◌≤◌, length};
ghost use Rattle.output.specs.Output.{Wrote};
ghost use Rattle.digits.specs.Decimal.{digits};
ghost use Rattle.layout.specs.Fields.{field, readable};
ghost use Rattle.addresses.specs.Addresses.{address_text, address_length, address_fits};
ghost use Rattle.places.specs.Bids.{places_text, places_fit};
ghost use Rattle.envelope.specs.Application.{layout6_g1, field_bytes, fields_of, no_fields, read_refusal, fields_in, reading, is_identifier, numbers_fit, texts_fit, write_refusal, write};
ghost use Rattle.envelope.specs.Writing.{first_fields, last_fields};

use crate::internal::{bytes_in, check_of, cro_of, date_of, recipient_of, sender_of, time_of};
use addresses::internal::put_after_code;
use addresses::{Address, address_fits, address_length, code_of};
use digits::all_digits;
use layout::internal::{put_field, put_head};
use places::internal::{put_places, read_places};
use places::{Amount, Places, Rate, places_fit};
use words::internal::{put_digits, put_eight, put_text};

// The fields of a 6G1, in their order.
#[derive(Clone, Copy)]
pub enum Field {
    MessageType,
    Sender,
    Recipient,
    Cro,
    Date,
    Time,
    Check,
    Identifier,
    Bids,
    Name,
}

// What a 6G1 holds: two addresses, the number of each digit field, and the numbers of each of the ten places.
#[derive(Clone, Copy)]
pub struct Fields {
    pub sender: Address,
    pub recipient: Address,
    pub cro: Option<u64>,
    pub date: Option<u64>,
    pub time: Option<u64>,
    pub check: Option<u64>,
    pub places: Places,
}

// A message that is no 6G1.
#[derive(Clone, Copy)]
pub struct Unreadable;

// The addresses and numbers that a 6G1 is written from.
#[derive(Clone, Copy)]
pub struct Application {
    pub sender: Address,
    pub recipient: Address,
    pub cro: u64,
    pub date: u64,
    pub time: u64,
    pub check: u64,
    pub rates: [Rate; 10],
    pub amounts: [Amount; 10],
}

// Why a 6G1 is not written: a number or a text does not fit its field, or the space is too short.
#[derive(Clone, Copy)]
pub enum WriteRefusal {
    Unfit,
    NoRoom,
}

// Whether m has the fields of a 6G1, in order, with their lengths, and nothing after them. From CRO on
// each field has one length, so that these stand at fixed distances from the end and are tested there.
// No 6G1 is under 339 bytes; this is tested first, so that the compiler knows it in every other test.
// In one of 339 bytes sender and recipient are short, so that it knows every index there.
pub fn is_6g1(m: &[u8]) -> bool
    ensures { result ≡ readable layout6_g1 m.now }
{
    let n = m.len();
    if n < 339 {
        return false;
    }
    let k = n - 317;
    if layout::readable(
        b"\x02\x0b\x0b\x31\x08\x08\x60\x06\x06\x10\x05\x05\x70\x0b\x0b\x76\xf0\xf0\x7f\x0f\x0f",
        &m[k..n],
    ) {
        if n == 339 {
            return layout::readable(b"\x01\x03\x03\x04\x05\x05\x05\x05\x05", &m[0..22]);
        }
        layout::readable(b"\x01\x03\x03\x04\x05\x0e\x05\x05\x0e", &m[0..k])
    } else {
        false
    }
}

// The bytes of a field, or none where m is no 6G1.
pub fn bytes(m: &[u8], f: Field) -> &[u8]
    ensures { result.now ≡ field_bytes f m.now }
{
    if is_6g1(m) { bytes_in(m, f) } else { &m[0..0] }
}

// The addresses and numbers of a readable 6G1.
fn fields_of(m: &[u8]) -> Fields
    requires { readable layout6_g1 m.now ≡ true }
    ensures { result ≡ fields_of m.now }
{
    let sender = sender_of(m);
    let recipient = recipient_of(m);
    let cro = cro_of(m);
    let date = date_of(m);
    let time = time_of(m);
    let check = check_of(m);
    let places = read_places(bytes_in(m, Field::Bids));
    Fields {
        sender,
        recipient,
        cro,
        date,
        time,
        check,
        places,
    }
}

// What the definition counts a refused reading as: fields without any number.
pub fn no_fields() -> Fields
    ensures { result ≡ no_fields }
{
    Fields {
        sender: Address::Malformed,
        recipient: Address::Malformed,
        cro: None,
        date: None,
        time: None,
        check: None,
        places: Places {
            formed: [false; 10],
            rates: [Rate(0); 10],
            amounts: [Amount(0); 10],
        },
    }
}

// Reads a 6G1, or refuses what is none and gives no numbers.
pub fn read(m: &[u8]) -> Result<Fields, Unreadable>
    ensures { (read_refusal result, fields_in result) ≡ reading m.now }
{
    if is_6g1(m) {
        Ok(fields_of(m))
    } else {
        Err(Unreadable)
    }
}

// Whether a text is an operation identifier, T/yyyy/nnnn.
pub fn is_identifier(s: &[u8]) -> bool
    ensures { result ≡ is_identifier s.now }
{
    if s.len() == 11 {
        (s[0] == b'T')
            & (s[1] == b'/')
            & all_digits(&s[2..6])
            & (s[6] == b'/')
            & all_digits(&s[7..11])
    } else {
        false
    }
}

// Whether each number fits the width of its field.
fn numbers_fit(a: Application) -> bool
    ensures { result ≡ numbers_fit a }
{
    let rates = a.rates;
    let amounts = a.amounts;
    let sender = a.sender;
    let recipient = a.recipient;
    address_fits(sender)
        & address_fits(recipient)
        & (a.cro < 100000000000)
        & (a.date < 100000000)
        & (a.time < 1000000)
        & (a.check < 100000)
        & places_fit(rates, amounts)
}

// Whether each text has the length of its field and the identifier is one.
fn texts_fit(kind: &[u8], identifier: &[u8], name: &[u8]) -> bool
    ensures { result ≡ texts_fit kind.now identifier.now name.now }
{
    (kind.len() == 3) & is_identifier(identifier) & (name.len() == 15)
}

// Writes a field of five to eight digits: eight that end where the field does, then its head over
// those that are too many, which takes fewer stores than each digit by itself.
fn put_short(space: &mut [u8], at: usize, tag: u8, w: usize, n: u64) -> usize
    requires { (5 ≤ w) × (w ≤ 8) × (n < 100000000) × (at + 3 + w ≤ length space.old) }
    ensures { Wrote space.old at (field tag (digits w n)) space.new result × (result ≡ at + 3 + w) }
{
    let end = put_eight(space, at + w - 5, n);
    put_head(space, at, tag, w);
    end
}

// Writes a field of w digits.
fn put_number(space: &mut [u8], at: usize, tag: u8, w: usize, n: u64) -> usize
    requires { at + 3 + w ≤ length space.old }
    ensures { Wrote space.old at (field tag (digits w n)) space.new result × (result ≡ at + 3 + w) }
{
    let start = put_head(space, at, tag, w);
    put_digits(space, start, w, n)
}

// Writes the field of a sender or recipient: its code, as put_short does, and what follows it.
fn put_address(space: &mut [u8], at: usize, tag: u8, a: Address) -> usize
    requires { (address_fits a ≡ true) × (at + 3 + address_length a ≤ length space.old) }
    ensures { Wrote space.old at (field tag (address_text a)) space.new result × (result ≡ at + 3 + address_length a) }
{
    let end = put_eight(space, at, code_of(a));
    put_head(space, at, tag, address_length(a));
    put_after_code(space, end, a)
}

// Writes a field of eight to sixteen bytes.
fn put_text_field(space: &mut [u8], at: usize, tag: u8, text: &[u8]) -> usize
    requires { (8 ≤ length text.now) × (length text.now ≤ 16) × (at + 3 + length text.now ≤ length space.old) }
    ensures { Wrote space.old at (field tag text.now) space.new result × (result ≡ at + 3 + length text.now) }
{
    let start = put_head(space, at, tag, text.len());
    put_text(space, start, text)
}

// Writes the field of the ten places.
fn put_bids(space: &mut [u8], at: usize, rates: [Rate; 10], amounts: [Amount; 10]) -> usize
    requires { (at + 243 ≤ length space.old) × (places_fit rates amounts ≡ true) }
    ensures { Wrote space.old at (field 0x76 (places_text rates amounts)) space.new result × (result ≡ at + 243) }
{
    let start = put_head(space, at, 0x76, 240);
    put_places(space, start, rates, amounts)
}

// Writes type, sender, recipient, CRO and reference date.
fn put_first(space: &mut [u8], a: Application, kind: &[u8]) -> usize
    requires { (numbers_fit a ≡ true) × (length kind.now ≡ 3) × (37 + address_length a.sender + address_length a.recipient ≤ length space.old) }
    ensures { Wrote space.old 0 (first_fields a kind.now) space.new result × (result ≡ 37 + address_length a.sender + address_length a.recipient) }
{
    let from = a.sender;
    let to = a.recipient;
    let sender = put_field(space, 0, 0x01, kind);
    let recipient = put_address(space, sender, 0x04, from);
    let cro = put_address(space, recipient, 0x05, to);
    let date = put_number(space, cro, 0x02, 11, a.cro);
    put_short(space, date, 0x31, 8, a.date)
}

// Writes reference time, check digit, identifier, bids and name.
fn put_last(space: &mut [u8], at: usize, a: Application, identifier: &[u8], name: &[u8]) -> usize
    requires { (numbers_fit a ≡ true) × (length identifier.now ≡ 11) × (length name.now ≡ 15) × (at + 292 ≤ length space.old) }
    ensures { Wrote space.old at (last_fields a identifier.now name.now) space.new result }
{
    let rates = a.rates;
    let amounts = a.amounts;
    let check = put_short(space, at, 0x60, 6, a.time);
    let tail = put_short(space, check, 0x10, 5, a.check);
    let bids = put_text_field(space, tail, 0x70, identifier);
    let contact = put_bids(space, bids, rates, amounts);
    put_text_field(space, contact, 0x7f, name)
}

// Writes a 6G1 at the start of a space, or refuses and leaves every byte as it was.
pub fn write(
    a: Application,
    kind: &[u8],
    identifier: &[u8],
    name: &[u8],
    space: &mut [u8],
) -> Result<(), WriteRefusal>
    ensures { (write_refusal result, space.new) ≡ write a kind.now identifier.now name.now space.old }
{
    if !(numbers_fit(a) & texts_fit(kind, identifier, name)) {
        return Err(WriteRefusal::Unfit);
    }
    let from = a.sender;
    let to = a.recipient;
    if space.len() < 329 + address_length(from) + address_length(to) {
        return Err(WriteRefusal::NoRoom);
    }
    let half = put_first(space, a, kind);
    put_last(space, half, a, identifier, name);
    Ok(())
}
