// A 6G0, the announcement of a tender, read from bytes.
#![tactic(auto)]

pub mod internal;

ghost use Rattle.std.specs.Prelude.{◌≡◌, true, length};
ghost use Rattle.layout.specs.Fields.{readable};
ghost use Rattle.announcement.specs.Announcement.{layout6_g0, field_bytes, side_named, choice_named, tender_named, fixed_parts, tender_type_of, characteristics_of, references_of, announcement_of, reading, dates_ordered};
ghost use Rattle.announcement.specs.Parts.{side_of, choice_of, slashes_stand};

use crate::internal::{bytes_in, digits_in, position_of};
use calendar::date_before;
use envelope::application::is_identifier;
use envelope::internal::contents_if;
use places::{Amount, Rate};
use texts::same;
use words::internal::{long_number_at, number_at};

// The fields of a 6G0, in their order.
#[derive(Clone, Copy)]
pub enum Field {
    MessageType,
    Sender,
    Recipient,
    Cro,
    Date,
    Time,
    Identifier,
    TenderType,
    Characteristics,
    SpotDate,
    ForwardDate,
    Cutoff,
}

// LA: the Treasury collects. LP: it invests.
#[derive(Clone, Copy)]
pub enum Side {
    La,
    Lp,
}

// A type of tender: the side, and whether it says Y.
#[derive(Clone, Copy)]
pub struct Kind {
    pub side: Side,
    pub choice: bool,
}

// The numbers of field 6G2.
#[derive(Clone, Copy)]
pub struct Characteristics {
    pub execution: u64,
    pub most: u64,
    pub offered: Amount,
    pub minimum: Amount,
    pub increment: Amount,
    pub maximum: Amount,
    pub allocation: Amount,
    pub limit: Rate,
}

// The numbers of sender, recipient, CRO, reference date and reference time.
#[derive(Clone, Copy)]
pub struct References {
    pub sender: Option<u64>,
    pub recipient: Option<u64>,
    pub cro: Option<u64>,
    pub date: Option<u64>,
    pub time: Option<u64>,
}

// What a 6G0 says: the numbers of its digit fields, whether its identifier is one, its kind, if it names one of the
// types, and its characteristics, if they are well formed.
#[derive(Clone, Copy)]
pub struct Announcement {
    pub references: References,
    pub identified: bool,
    pub kind: Option<Kind>,
    pub characteristics: Option<Characteristics>,
    pub spot: Option<u64>,
    pub forward: Option<u64>,
    pub cutoff: Option<u64>,
}

// Whether m has the fields of a 6G0, in order, with their lengths, and nothing after them. Its length is tested first, so that the compiler knows it in every other test.
pub fn is_6g0(m: &[u8]) -> bool
    ensures { result ≡ readable layout6_g0 m.now }
{
    if m.len() != 225 {
        return false;
    }
    layout::readable(
        b"\x01\x03\x03\x04\x05\x05\x05\x05\x05\x02\x0b\x0b\x31\x08\x08\x60\x06\x06\x70\x0b\x0b\x71\x12\x12\x72\x64\x64\x73\x08\x08\x74\x08\x08\x75\x06\x06",
        m,
    )
}

// The bytes of a field, or none where m is no 6G0.
pub fn bytes(m: &[u8], f: Field) -> &[u8]
    ensures { result.now ≡ field_bytes f m.now }
{
    contents_if(is_6g0(m), m, position_of(f))
}

// The kind of tender that a text announces. Its length is tested first, then its parts.
pub fn kind_of(s: &[u8]) -> Option<Kind>
    ensures { result ≡ tender_type_of s.now }
{
    if s.len() != 18 {
        return None;
    }
    if !fixed_parts_stand(s) {
        return None;
    }
    tender_named(&s[6..8], &s[11..12])
}

// Whether the parts that every type has stand in their places.
fn fixed_parts_stand(s: &[u8]) -> bool
    requires { length s.now ≡ 18 }
    ensures { result ≡ fixed_parts s.now }
{
    same(&s[0..6], b"NC/FD/") & same(&s[8..11], b"/R/") & same(&s[12..18], b"/VR/MR")
}

// The tender whose side and choice these letters name.
fn tender_named(side: &[u8], choice: &[u8]) -> Option<Kind>
    ensures { result ≡ tender_named (side_named side.now) (choice_named choice.now) }
{
    Some(Kind {
        side: side_named(side)?,
        choice: choice_named(choice)?,
    })
}

// The side that two letters name.
fn side_named(s: &[u8]) -> Option<Side>
    ensures { side_of result ≡ side_named s.now }
{
    if same(s, b"LA") {
        return Some(Side::La);
    }
    if same(s, b"LP") {
        return Some(Side::Lp);
    }
    None
}

// What the letter of the choice says.
fn choice_named(s: &[u8]) -> Option<bool>
    ensures { choice_of result ≡ choice_named s.now }
{
    if same(s, b"Y") {
        return Some(true);
    }
    if same(s, b"N") {
        return Some(false);
    }
    None
}

// Whether slashes stand between the parts.
fn slashes_stand(s: &[u8]) -> bool
    requires { length s.now ≡ 100 }
    ensures { result ≡ slashes_stand s.now }
{
    (s[8] == b'/')
        & (s[11] == b'/')
        & (s[27] == b'/')
        & (s[43] == b'/')
        & (s[59] == b'/')
        & (s[75] == b'/')
        & (s[91] == b'/')
}

// Field 6G2: its numbers, or none where it is malformed. Each part is read once, to be tested and to give its number.
fn characteristics_of(s: &[u8]) -> Option<Characteristics>
    requires { length s.now ≡ 100 }
    ensures { result ≡ characteristics_of s.now }
{
    if !slashes_stand(s) {
        return None;
    }
    let execution = number_at(s, 0, 8)?;
    let most = number_at(s, 9, 11)?;
    let offered = long_number_at(s, 12, 27)?;
    let minimum = long_number_at(s, 28, 43)?;
    let increment = long_number_at(s, 44, 59)?;
    let maximum = long_number_at(s, 60, 75)?;
    let allocation = long_number_at(s, 76, 91)?;
    let limit = number_at(s, 92, 100)?;
    Some(Characteristics {
        execution,
        most,
        offered: Amount(offered),
        minimum: Amount(minimum),
        increment: Amount(increment),
        maximum: Amount(maximum),
        allocation: Amount(allocation),
        limit: Rate(limit as u32),
    })
}

// What a readable 6G0 says of sender, recipient, CRO, reference date and reference time.
fn references_of(m: &[u8]) -> References
    requires { readable layout6_g0 m.now ≡ true }
    ensures { result ≡ references_of m.now }
{
    let sender = digits_in(m, Field::Sender);
    let recipient = digits_in(m, Field::Recipient);
    let cro = digits_in(m, Field::Cro);
    let date = digits_in(m, Field::Date);
    let time = digits_in(m, Field::Time);
    References {
        sender,
        recipient,
        cro,
        date,
        time,
    }
}

// What a readable 6G0 says.
fn announcement_of(m: &[u8]) -> Announcement
    requires { readable layout6_g0 m.now ≡ true }
    ensures { result ≡ announcement_of m.now }
{
    let references = references_of(m);
    let identified = is_identifier(bytes_in(m, Field::Identifier));
    let kind = kind_of(bytes_in(m, Field::TenderType));
    let characteristics = characteristics_of(bytes_in(m, Field::Characteristics));
    let spot = digits_in(m, Field::SpotDate);
    let forward = digits_in(m, Field::ForwardDate);
    let cutoff = digits_in(m, Field::Cutoff);
    Announcement {
        references,
        identified,
        kind,
        characteristics,
        spot,
        forward,
        cutoff,
    }
}

// What a 6G0 says; another message says nothing.
pub fn read(m: &[u8]) -> Option<Announcement>
    ensures { result ≡ reading m.now }
{
    if is_6g0(m) {
        Some(announcement_of(m))
    } else {
        None
    }
}

// Whether the reference date is not after the execution date, the spot date not before it, and the
// forward date after the spot date.
pub fn dates_ordered(reference: u64, execution: u64, spot: u64, forward: u64) -> bool
    ensures { result ≡ dates_ordered reference execution spot forward }
{
    !date_before(execution, reference) & !date_before(spot, execution) & date_before(spot, forward)
}
