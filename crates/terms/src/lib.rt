// The terms of a tender: what opening refuses of an announcement, an admitted list and its limits, and what
// it keeps of the announcement.
#![tactic(auto)]

ghost use Rattle.std.specs.Prelude.{◌≡◌, true, is_some, length, IfSome};
ghost use Rattle.layout.specs.Fields.{readable};
ghost use Rattle.announcement.specs.Announcement.{layout6_g0, announcement_of};
ghost use Rattle.rules.specs.Opening.{Admission, admitting, nobody, is_date, is_time, well_formed, other_origin, impossible, bad_codes, limit_too_long, terms_of, no_terms};
ghost use Rattle.terms.specs.Viewed.{references_formed, dates_formed, rises_from, dates_in_order, admission_refused, open_number, open_refusal, viewed, OpensTerms};

use announcement::internal::bytes_in;
use announcement::{
    Announcement, Characteristics, Field, Kind, References, Side, dates_ordered, read,
};
use calendar::{valid_date, valid_time};
use places::{Amount, Rate};
use texts::same;

// Why an opening is refused.
#[derive(Clone, Copy, Debug, PartialEq, Eq)]
pub enum OpenRefusal {
    NotAnnouncement,
    OtherOrigin,
    Malformed,
    UnknownType,
    Impossible,
    Disordered,
    BadCodes,
    LimitsMiscounted,
    LimitTooLong,
}

// What a tender keeps of its announcement.
#[derive(Clone, Copy)]
pub struct Terms {
    pub identifier: [u8; 11],
    pub side: Side,
    pub execution: u64,
    pub cutoff: u64,
    pub most: u64,
    pub offered: Amount,
    pub minimum: Amount,
    pub increment: Amount,
    pub maximum: Amount,
    pub allocation: Amount,
    pub limit: Rate,
}

// Whether a field is a date.
pub fn is_date(d: Option<u64>) -> bool
    ensures { result ≡ is_date d }
{
    match d {
        Some(n) => valid_date(n),
        None => false,
    }
}

// Whether a field is a time.
pub fn is_time(d: Option<u64>) -> bool
    ensures { result ≡ is_time d }
{
    match d {
        Some(n) => valid_time(n),
        None => false,
    }
}

fn references_formed(r: References) -> bool
    ensures { result ≡ references_formed r }
{
    r.recipient.is_some() & r.cro.is_some() & is_date(r.date) & is_time(r.time)
}

fn dates_formed(a: Announcement, c: Characteristics) -> bool
    requires { a.characteristics ≡ Some c }
    ensures { result ≡ dates_formed a }
{
    valid_date(c.execution) & is_date(a.spot) & is_date(a.forward) & is_time(a.cutoff)
}

// The characteristics of an announcement of which nothing is malformed, its type field apart.
fn well_formed(a: Announcement) -> Option<Characteristics>
    ensures whether { is_some result ≡ well_formed a }
    ensures which { IfSome result (λ c. a.characteristics ≡ Some c) }
{
    let c = a.characteristics?;
    if references_formed(a.references) & a.identified & dates_formed(a, c) {
        Some(c)
    } else {
        None
    }
}

// Whether the type is another than 6G0 or the sender another than 01000.
fn other_origin(m: &[u8]) -> bool
    requires { readable layout6_g0 m.now ≡ true }
    ensures { result ≡ other_origin m.now }
{
    !(same(bytes_in(m, Field::MessageType), b"6G0") & same(bytes_in(m, Field::Sender), b"01000"))
}

// Whether most bids or an amount is one that no tender has.
fn numbers_impossible(c: Characteristics) -> bool
    ensures { result ≡ impossible c }
{
    (c.most == 0)
        | (10 < c.most)
        | (c.offered.0 == 0)
        | (c.minimum.0 == 0)
        | (c.increment.0 == 0)
        | ((c.maximum.0 != 0) & (c.maximum.0 < c.minimum.0))
}

// Whether codes rise strictly and none is over 99999.
fn codes_rise(codes: &[u32]) -> bool
    ensures { result ≡ rises_from 0 codes.now }
{
    let mut ok = true;
    let mut least: u64 = 0;
    for &code in codes {
        let c = u64::from(code);
        ok &= (least <= c) & (c <= 99999);
        least = c + 1;
    }
    ok
}

// Whether an admitted list is empty, over 64, not strictly rising, or has a code over 99999.
fn codes_bad(codes: &[u32]) -> bool
    ensures { result ≡ bad_codes codes.now }
{
    let n = codes.len();
    (n == 0) | (64 < n) | !codes_rise(codes)
}

// Whether the dates of an announcement stand in their order.
fn in_order(a: Announcement, c: Characteristics) -> bool
    requires { a.characteristics ≡ Some c }
    ensures { result ≡ dates_in_order a }
{
    dates_ordered(
        a.references.date.unwrap_or(0),
        c.execution,
        a.spot.unwrap_or(0),
        a.forward.unwrap_or(0),
    )
}

// Whether a limit has over fifteen digits.
fn limit_too_long(limits: &[u64]) -> bool
    ensures { result ≡ limit_too_long limits.now }
{
    let mut found = false;
    for &limit in limits {
        found |= 999_999_999_999_999 < limit;
    }
    found
}

// Refuses by the first condition that holds of an admitted list and its limits.
fn admission_refusal(codes: &[u32], limits: &[u64]) -> Result<(), OpenRefusal>
    ensures { open_refusal result ≡ admission_refused (admitting codes.now limits.now) }
{
    if codes_bad(codes) {
        return Err(OpenRefusal::BadCodes);
    }
    if limits.len() != codes.len() {
        return Err(OpenRefusal::LimitsMiscounted);
    }
    if limit_too_long(limits) {
        return Err(OpenRefusal::LimitTooLong);
    }
    Ok(())
}

// A text of eleven bytes as an array.
fn eleven(s: &[u8]) -> [u8; 11]
    requires { length s.now ≡ 11 }
    ensures { result ≡ s.now }
{
    let mut a = [0u8; 11];
    a.copy_from_slice(s);
    a
}

// What a tender keeps of an announcement of this kind with these characteristics.
fn terms_of(m: &[u8], a: Announcement, kind: Kind, c: Characteristics) -> Terms
    requires m_value { (readable layout6_g0 m.now ≡ true) × (a ≡ announcement_of m.now) }
    requires a_value { (a.kind ≡ Some kind) × (a.characteristics ≡ Some c) }
    ensures { (a : Admission) → viewed result a ≡ terms_of m.now a }
{
    Terms {
        identifier: eleven(bytes_in(m, Field::Identifier)),
        side: kind.side,
        execution: c.execution,
        cutoff: a.cutoff.unwrap_or(0),
        most: c.most,
        offered: c.offered,
        minimum: c.minimum,
        increment: c.increment,
        maximum: c.maximum,
        allocation: c.allocation,
        limit: c.limit,
    }
}

// The terms of the empty tender that a refused opening gives back.
pub fn no_terms() -> Terms
    ensures { viewed result nobody ≡ no_terms }
{
    Terms {
        identifier: [0; 11],
        side: Side::La,
        execution: 0,
        cutoff: 0,
        most: 0,
        offered: Amount(0),
        minimum: Amount(0),
        increment: Amount(0),
        maximum: Amount(0),
        allocation: Amount(0),
        limit: Rate(0),
    }
}

// Document 01's number of a refusal to open.
pub fn number_of(r: OpenRefusal) -> u64
    ensures { result ≡ open_number r }
{
    match r {
        OpenRefusal::NotAnnouncement => 1,
        OpenRefusal::OtherOrigin => 2,
        OpenRefusal::Malformed => 3,
        OpenRefusal::UnknownType => 4,
        OpenRefusal::Impossible => 5,
        OpenRefusal::Disordered => 6,
        OpenRefusal::BadCodes => 7,
        OpenRefusal::LimitsMiscounted => 19,
        OpenRefusal::LimitTooLong => 20,
    }
}

// Opens a tender: the terms of the announcement, unless one of the conditions 1 to 7, 19 and 20 refuses it.
pub fn open(m: &[u8], codes: &[u32], limits: &[u64]) -> Result<Terms, OpenRefusal>
    ensures { OpensTerms m.now (admitting codes.now limits.now) result }
{
    let Some(a) = read(m) else {
        return Err(OpenRefusal::NotAnnouncement);
    };
    if other_origin(m) {
        return Err(OpenRefusal::OtherOrigin);
    }
    let Some(c) = well_formed(a) else {
        return Err(OpenRefusal::Malformed);
    };
    let Some(kind) = a.kind else {
        return Err(OpenRefusal::UnknownType);
    };
    if numbers_impossible(c) {
        return Err(OpenRefusal::Impossible);
    }
    if !in_order(a, c) {
        return Err(OpenRefusal::Disordered);
    }
    admission_refusal(codes, limits)?;
    Ok(terms_of(m, a, kind, c))
}
