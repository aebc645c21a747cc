// Replies written straight from a message or its parts into a space with room for them.
ghost use Rattle.std.specs.Prelude.{◌≡◌, ◌+◌, ◌*◌, ◌<◌, ◌≤◌, map, min, length, take};
ghost use Rattle.digits.specs.Decimal.{digits};
ghost use Rattle.output.specs.Output.{Wrote};
ghost use Rattle.layout.specs.Fields.{field};
ghost use Rattle.rules.specs.Replies.{confirmation, error_text, error_texts, shown, returned_message};
ghost use Rattle.errors.specs.Listed.{idc_table, idc_in, named, listed};
ghost use Rattle.replies.specs.Texts.{row_in, slashed, origin};

use digits::internal::put_digits;
use errors::Errors;
use layout::internal::{put_field, put_head};
use output::internal::{put, put_byte};

// The row of a code in the table of IDCs, the row past the last one where no row has it.
fn row(code: u16) -> usize
    ensures { (result ≡ row_in idc_table code) × (result < 11) }
{
    match code {
        900 => 0,
        309 => 1,
        300 => 1,
        599 => 2,
        521 => 3,
        502 => 4,
        522 => 4,
        503 => 5,
        302 => 5,
        908 => 6,
        303 => 7,
        901 => 8,
        902 => 8,
        903 => 8,
        904 => 8,
        905 => 8,
        906 => 8,
        907 => 8,
        301 => 9,
        _ => 10,
    }
}

// Writes the IDC of a code.
fn put_idc(space: &mut [u8], at: usize, code: u16) -> usize
    requires { at + 3 ≤ length space.old }
    ensures { Wrote space.old at (idc_in idc_table code) space.new result × (result ≡ at + 3) }
{
    let idcs: &[u8] = b"001040050020D316010106G06G66G5999";
    let start = 3 * row(code);
    put(space, at, &idcs[start..start + 3])
}

// Writes the text of one error.
fn put_text(space: &mut [u8], at: usize, code: u16) -> usize
    requires { at + 9 ≤ length space.old }
    ensures { Wrote space.old at (error_text (named code)) space.new result × (result ≡ at + 9) }
{
    let dash = put_idc(space, at, code);
    let number = put(space, dash, b" - ");
    put_digits(space, number, 3, code as u64)
}

// Writes the texts of some errors, each after a slash.
fn put_rest(space: &mut [u8], at: usize, codes: &[u16]) -> usize
    requires { at + 10 * length codes.now ≤ length space.old }
    ensures { Wrote space.old at (slashed codes.now) space.new result × (result ≡ at + 10 * length codes.now) }
{
    let mut end = at;
    for &code in codes {
        let start = put_byte(space, end, b'/');
        end = put_text(space, start, code);
    }
    end
}

// Writes the texts of the errors, joined by slashes.
fn put_texts(space: &mut [u8], at: usize, codes: &[u16]) -> usize
    requires { (0 < length codes.now) × (at + 10 * length codes.now ≤ length space.old + 1) }
    ensures { Wrote space.old at (error_texts (map named codes.now)) space.new result × (result + 1 ≡ at + 10 * length codes.now) }
{
    let rest = put_text(space, at, codes[0]);
    put_rest(space, rest, &codes[1..])
}

// The errors that a reply shows: with over five, the fifth is 999.
fn shown(e: Errors) -> Errors
    requires { e.n ≤ 16 }
    ensures { (listed result ≡ shown (listed e)) × (result.n ≡ min e.n 5) }
{
    if e.n <= 5 {
        return e;
    }
    let mut next = e;
    next.codes[4] = 999;
    next.n = 5;
    next
}

// Writes the errors that a reply shows, joined by slashes.
pub fn put_errors(space: &mut [u8], at: usize, e: Errors) -> usize
    requires { (0 < e.n) × (e.n ≤ 16) × (at + 49 ≤ length space.old) }
    ensures { Wrote space.old at (error_texts (shown (listed e))) space.new result × (result ≤ at + 49) }
{
    let few = shown(e);
    put_texts(space, at, few.as_slice())
}

// Writes a message and after it the two fields that say its errors, which take up to 79 bytes.
pub fn put_returned(space: &mut [u8], m: &[u8], e: Errors) -> usize
    requires { (1 ≤ e.n) × (e.n ≤ 16) × (length m.now + 79 ≤ length space.old) }
    ensures { Wrote space.old 0 (returned_message m.now (listed e)) space.new result }
{
    let banner = put(space, 0, m);
    let list = put_field(space, banner, 0x98, b"*** MESSAGGIO ERRATO ***");
    let few = shown(e);
    let n = few.n;
    let start = put_head(space, list, 0x98, 10 * n - 1);
    put_texts(space, start, few.as_slice())
}

// Writes the sender and the CRO of a message as recipient and original CRO.
fn put_origin(space: &mut [u8], at: usize, sender: &[u8], cro: &[u8]) -> usize
    requires { at + 6 + length sender.now + length cro.now ≤ length space.old }
    ensures { Wrote space.old at (origin sender.now cro.now) space.new result × (result ≡ at + 6 + length sender.now + length cro.now) }
{
    let original = put_field(space, at, 0x05, sender);
    put_field(space, original, 0x22, cro)
}

// Writes the reception time.
fn put_time(space: &mut [u8], at: usize, time: u64) -> usize
    requires { at + 9 ≤ length space.old }
    ensures { Wrote space.old at (field 0x60 (digits 6 time)) space.new result × (result ≡ at + 9) }
{
    let start = put_head(space, at, 0x60, 6);
    put_digits(space, start, 6, time)
}

// Writes a confirmation: its type, the sender and the CRO of the message, the reception time, and what its last field holds.
pub fn put_confirmation(
    space: &mut [u8],
    kind: &[u8],
    sender: &[u8],
    cro: &[u8],
    time: u64,
    last: &[u8],
) -> usize
    requires { 29 + length kind.now + length sender.now + length cro.now + length last.now ≤ length space.old }
    ensures { Wrote space.old 0 (confirmation kind.now sender.now cro.now time last.now) space.new result }
{
    let treasury = put_field(space, 0, 0x01, kind);
    let origin = put_field(space, treasury, 0x04, b"01000");
    let reception = put_origin(space, origin, sender, cro);
    let tail = put_time(space, reception, time);
    put_field(space, tail, 0x70, last)
}
