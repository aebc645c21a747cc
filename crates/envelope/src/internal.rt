// What asks for a message that was found readable.
ghost use Rattle.std.specs.Prelude.{◌≡◌, true, cond, [], ◌+◌, ◌*◌, ◌-◌, ◌≤◌, ◌<◌, eqb, length, take, drop};
ghost use Rattle.digits.specs.Decimal.{digits_of};
ghost use Rattle.layout.specs.Fields.{IsOneOf, readable, offset, content, whole};
ghost use Rattle.addresses.specs.Addresses.{address_of, code_digits};
ghost use Rattle.places.specs.Bids.{place_of};
ghost use Rattle.envelope.specs.declared.application.Field.TheVariants.{Sender, Recipient, Cro, Date, Time, Check, Bids};
ghost use Rattle.envelope.specs.Application.{entry_of, layout6_g1, position, bytes_of};

use crate::application::Field;
use addresses::internal::address_at;
use addresses::{Address, code_digits};
use layout::internal::{contents, length_at};
use places::Place;
use places::internal::read_place;
use words::internal::{long_number_at, number_at};

// The contents of field k where it is there, else none.
pub fn contents_if(there: bool, m: &[u8], k: usize) -> &[u8]
    requires { there ≡ true → whole k m.now ≡ true }
    ensures { result.now ≡ cond there (content k m.now) [] }
{
    if there { contents(m, k) } else { &m[0..0] }
}

// Where the bids start in a 6G1 of n bytes. A message passed on here would keep the compiler from reading
// the places within their loop.
fn bids_start(n: usize) -> usize
    requires { 339 ≤ n }
    ensures { result ≡ n - 258 }
{
    n - 258
}

// Where the bytes of a field of a readable 6G1 start. From CRO on each field has one length, so that these
// stand at fixed distances from the end.
pub fn start_of(m: &[u8], f: Field) -> usize
    requires { readable layout6_g1 m.now ≡ true }
    ensures { result ≡ offset (position f) m.now + 3 }
{
    match f {
        Field::MessageType => 3,
        Field::Sender => 9,
        Field::Recipient => 12 + length_at(m, 6),
        Field::Cro => m.len() - 314,
        Field::Date => m.len() - 300,
        Field::Time => m.len() - 289,
        Field::Check => m.len() - 280,
        Field::Identifier => m.len() - 272,
        Field::Bids => bids_start(m.len()),
        Field::Name => m.len() - 15,
    }
}

// How many bytes the field has.
fn width_of(m: &[u8], f: Field) -> usize
    requires { readable layout6_g1 m.now ≡ true }
    ensures { result ≡ length (bytes_of f m.now) }
{
    match f {
        Field::MessageType => 3,
        Field::Sender => length_at(m, 6),
        Field::Recipient => length_at(m, 9 + length_at(m, 6)),
        Field::Cro => 11,
        Field::Date => 8,
        Field::Time => 6,
        Field::Check => 5,
        Field::Identifier => 11,
        Field::Bids => 240,
        Field::Name => 15,
    }
}

// The bytes of a field of a readable 6G1, as many as one of the lengths of its entry.
pub fn bytes_in(m: &[u8], f: Field) -> &[u8]
    requires { readable layout6_g1 m.now ≡ true }
    ensures { (result.now ≡ bytes_of f m.now) × IsOneOf (entry_of f).lengths (length result.now) }
{
    let at = start_of(m, f);
    let n = width_of(m, f);
    &m[at..at + n]
}

// The number in its CRO.
pub fn cro_of(m: &[u8]) -> Option<u64>
    requires { readable layout6_g1 m.now ≡ true }
    ensures { result ≡ digits_of (bytes_of Cro m.now) }
{
    let at = start_of(m, Field::Cro);
    long_number_at(m, at, at + 11)
}

// The number in its reference date.
pub fn date_of(m: &[u8]) -> Option<u64>
    requires { readable layout6_g1 m.now ≡ true }
    ensures { result ≡ digits_of (bytes_of Date m.now) }
{
    let at = start_of(m, Field::Date);
    number_at(m, at, at + 8)
}

// The number in its reference time.
pub fn time_of(m: &[u8]) -> Option<u64>
    requires { readable layout6_g1 m.now ≡ true }
    ensures { result ≡ digits_of (bytes_of Time m.now) }
{
    let at = start_of(m, Field::Time);
    number_at(m, at, at + 6)
}

// The number in its check digit.
pub fn check_of(m: &[u8]) -> Option<u64>
    requires { readable layout6_g1 m.now ≡ true }
    ensures { result ≡ digits_of (bytes_of Check m.now) }
{
    let at = start_of(m, Field::Check);
    number_at(m, at, at + 5)
}

// Its place k, counted from 0.
pub fn place_of(m: &[u8], k: usize) -> Place
    requires m_value { readable layout6_g1 m.now ≡ true }
    requires k_bound { k < 10 }
    ensures { result ≡ place_of (take 24 (drop (24 * k) (bytes_of Bids m.now))) }
{
    let at = bids_start(m.len()) + 24 * k;
    read_place(&m[at..at + 24])
}

// Whether both addresses of a readable 6G1 have the short form; no other has 339 bytes.
pub fn both_short(m: &[u8]) -> bool
    requires { readable layout6_g1 m.now ≡ true }
    ensures { result ≡ eqb (length (bytes_of Sender m.now) + length (bytes_of Recipient m.now)) 10 }
{
    m.len() == 339
}

// The address of the sender of a readable 6G1.
pub fn sender_of(m: &[u8]) -> Address
    requires { readable layout6_g1 m.now ≡ true }
    ensures { result ≡ address_of (bytes_of Sender m.now) }
{
    let w = length_at(m, 6);
    address_at(m, 9, w)
}

// The address of its recipient.
pub fn recipient_of(m: &[u8]) -> Address
    requires { readable layout6_g1 m.now ≡ true }
    ensures { result ≡ address_of (bytes_of Recipient m.now) }
{
    let w = length_at(m, 6);
    let v = length_at(m, 9 + w);
    address_at(m, 12 + w, v)
}

// The first five bytes of its sender, which both forms have.
pub fn sender_code(m: &[u8]) -> &[u8]
    requires { readable layout6_g1 m.now ≡ true }
    ensures { (result.now ≡ take 5 (bytes_of Sender m.now)) × (length result.now ≡ 5) }
{
    &m[9..14]
}

// The code of its sender, as what a digit field holds. Where both addresses are short it is read at one
// index, which is faster.
pub fn sender_digits(m: &[u8]) -> Option<u64>
    requires { readable layout6_g1 m.now ≡ true }
    ensures { result ≡ code_digits (address_of (bytes_of Sender m.now)) }
{
    if both_short(m) {
        return number_at(m, 9, 14);
    }
    code_digits(sender_of(m))
}

// The code of its recipient, in the same way.
pub fn recipient_digits(m: &[u8]) -> Option<u64>
    requires { readable layout6_g1 m.now ≡ true }
    ensures { result ≡ code_digits (address_of (bytes_of Recipient m.now)) }
{
    if both_short(m) {
        return number_at(m, 17, 22);
    }
    code_digits(recipient_of(m))
}
