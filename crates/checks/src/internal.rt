// Errors added group by group; each group asks for its free places.
ghost use Rattle.std.specs.Prelude.{◌≡◌, true, not, List, [], ◌++◌, ℕ, ◌+◌, ◌≤◌, ◌<◌, eqb, take};
ghost use Rattle.texts.specs.Texts.{ascii, same_text};
ghost use Rattle.layout.specs.Fields.{readable};
ghost use Rattle.addresses.specs.Addresses.{code_in};
ghost use Rattle.places.specs.Bids.{all_formed};
ghost use Rattle.envelope.specs.declared.application.Field.TheVariants.{MessageType, Recipient, Identifier};
ghost use Rattle.envelope.specs.Application.{layout6_g1, bytes_of, fields_of};
ghost use Rattle.rules.specs.Opening.{nobody, any};
ghost use Rattle.rules.specs.Receiving.{sender_errors, date_errors, bid_errors};
ghost use Rattle.bids.specs.Columns.{bids_from};
ghost use Rattle.errors.specs.Listed.{listed};
ghost use Rattle.terms.specs.Viewed.{viewed};
ghost use Rattle.checks.specs.Columns.{column_errors, HeadErrors, AllErrors};

use addresses::{Address, has_address};
use bids::{any_fine, any_small, any_uneven, count, has_gap, is_over};
use calendar::moment_later;
use envelope::application::{Field, Fields};
use envelope::internal::bytes_in;
use errors::Errors;
use errors::internal::with;
use places::{Amount, Places, Rate};
use terms::{Terms, is_date, is_time};
use texts::same;

// Whether the type is another than 6G1.
fn other_type(m: &[u8]) -> bool
    requires { readable layout6_g1 m.now ≡ true }
    ensures { result ≡ not (same_text (bytes_of MessageType m.now) (ascii "6G1")) }
{
    !same(bytes_in(m, Field::MessageType), b"6G1")
}

// Whether the recipient is another than 01000, of which its first five bytes tell.
fn other_recipient(m: &[u8]) -> bool
    requires { readable layout6_g1 m.now ≡ true }
    ensures { result ≡ not (same_text (take 5 (bytes_of Recipient m.now)) (ascii "01000")) }
{
    let recipient = bytes_in(m, Field::Recipient);
    !same(&recipient[0..5], b"01000")
}

// Whether the identifier is another than the tender's.
fn other_identifier(m: &[u8], identifier: [u8; 11]) -> bool
    requires { readable layout6_g1 m.now ≡ true }
    ensures { result ≡ not (same_text (bytes_of Identifier m.now) identifier) }
{
    !same(bytes_in(m, Field::Identifier), &identifier)
}

// The error of a sender; whether its code is admitted is told.
pub fn sender_errors(e: Errors, sender: Address, admitted: bool) -> Errors
    requires { e.n < 16 }
    ensures { ((codes : List ℕ) → admitted ≡ any (eqb (code_in sender)) codes → listed result ≡ listed e ++ sender_errors codes sender) × (result.n ≤ e.n + 1) }
{
    if has_address(sender) {
        return with(e, !admitted, 300);
    }
    with(e, true, 309)
}

// The error of a reference date.
pub fn date_errors(e: Errors, execution: u64, date: Option<u64>) -> Errors
    requires { e.n < 16 }
    ensures { (listed result ≡ listed e ++ date_errors execution date) × (result.n ≤ e.n + 1) }
{
    if is_date(date) {
        return with(e, date.unwrap_or(0) != execution, 522);
    }
    with(e, true, 502)
}

// The errors of ten well-formed places, 902 to 907.
pub fn bid_errors(e: Errors, t: Terms, rates: [Rate; 10], amounts: [Amount; 10]) -> Errors
    requires { e.n ≤ 10 }
    ensures { (listed result ≡ listed e ++ bid_errors (viewed t nobody) (bids_from rates amounts 0 10)) × (result.n ≤ e.n + 6) }
{
    let gap = with(e, has_gap(rates, amounts), 902);
    let many = with(gap, t.most < count(rates, amounts), 903);
    let fine = with(many, any_fine(rates, amounts), 904);
    let small = with(fine, any_small(rates, amounts, t.minimum), 905);
    let uneven = with(
        small,
        any_uneven(rates, amounts, t.minimum, t.increment),
        906,
    );
    with(uneven, is_over(rates, amounts, t.maximum), 907)
}

// Whether each of ten places is well formed.
pub fn all_formed(formed: [bool; 10]) -> bool
    ensures { result ≡ all_formed formed }
{
    let mut ok = true;
    for place_formed in formed {
        ok &= place_formed;
    }
    ok
}

// The errors of ten places, 901 or 902 to 907.
pub fn place_errors(e: Errors, t: Terms, p: Places) -> Errors
    requires { e.n ≤ 10 }
    ensures { (listed result ≡ listed e ++ column_errors t p) × (result.n ≤ e.n + 6) }
{
    let formed = p.formed;
    if all_formed(formed) {
        let rates = p.rates;
        let amounts = p.amounts;
        return bid_errors(e, t, rates, amounts);
    }
    with(e, true, 901)
}

// The errors of the fields before the places, 900 to 303.
fn field_errors(m: &[u8], t: Terms, f: Fields, admitted: bool) -> Errors
    requires { readable layout6_g1 m.now ≡ true }
    ensures { HeadErrors t m.now f admitted result }
{
    let sender = f.sender;
    let cro = f.cro;
    let date = f.date;
    let time = f.time;
    let check = f.check;
    let identifier = t.identifier;
    let first = with(Errors::none(), other_type(m), 900);
    let second = sender_errors(first, sender, admitted);
    let third = with(second, other_recipient(m), 599);
    let fourth = with(third, cro.is_none(), 521);
    let fifth = date_errors(fourth, t.execution, date);
    let sixth = with(fifth, !is_time(time), 503);
    let seventh = with(sixth, check.is_none(), 908);
    with(seventh, other_identifier(m, identifier), 303)
}

// The errors of a readable message with the fields f, received on a day and at a second.
pub fn errors_of(m: &[u8], t: Terms, f: Fields, admitted: bool, day: u64, second: u64) -> Errors
    requires m_value { readable layout6_g1 m.now ≡ true }
    requires f_value { f ≡ fields_of m.now }
    ensures { AllErrors t m.now f admitted day second result }
{
    let p = f.places;
    let head = field_errors(m, t, f, admitted);
    let places = place_errors(head, t, p);
    with(
        places,
        moment_later(day, second, t.execution, t.cutoff),
        301,
    )
}
