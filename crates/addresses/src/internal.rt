// Addresses read from a field of their length, and written where there is room.
ghost use Rattle.std.specs.Prelude.{◌≡◌, ◌≢◌, true, [], ◌∷◌, ◌++◌, ◌+◌, ◌≤◌, length, take, drop};
ghost use Rattle.output.specs.Output.{Wrote};
ghost use Rattle.digits.specs.Decimal.{digits_of, digits};
ghost use Rattle.addresses.specs.Addresses.{code_address, branch_address, address_of, address_text, address_length, address_fits};

use crate::Address;
use output::internal::put_byte;
use words::internal::{number_at, put_digits};

// The short form of what five bytes hold.
fn code_from(code: Option<u64>) -> Address
    ensures { result ≡ code_address code }
{
    match code {
        Some(code) => Address::Code(code),
        None => Address::Malformed,
    }
}

// The long form in 14 bytes, of which the first five were read.
fn branch_from(m: &[u8], from: usize, code: Option<u64>) -> Address
    requires { (3 ≤ from) × (from + 14 ≤ length m.now) × (code ≡ digits_of (take 5 (drop from m.now))) }
    ensures { result ≡ branch_address (take 14 (drop from m.now)) }
{
    let branch = number_at(m, from + 6, from + 11);
    match (code, branch) {
        (Some(code), Some(branch)) if (m[from + 5] == b'/') & (m[from + 11] == b'/') => {
            Address::Branch(code, branch, m[from + 12], m[from + 13])
        }
        _ => Address::Malformed,
    }
}

// The address in w bytes from an index on, which is 3 or more. Both forms start with a code.
pub fn address_at(m: &[u8], from: usize, w: usize) -> Address
    requires { (3 ≤ from) × (w ≢ 5 → w ≡ 14) × (5 ≤ w) × (from + w ≤ length m.now) }
    ensures { result ≡ address_of (take w (drop from m.now)) }
{
    let code = number_at(m, from, from + 5);
    if w == 5 {
        return code_from(code);
    }
    branch_from(m, from, code)
}

// Writes what follows the code in the long form: a slash, the branch, a slash and two characters.
fn put_branch(space: &mut [u8], at: usize, branch: u64, first: u8, second: u8) -> usize
    requires { at + 9 ≤ length space.old }
    ensures { Wrote space.old at (47 ∷ digits 5 branch ++ 47 ∷ first ∷ second ∷ []) space.new result × (result ≡ at + 9) }
{
    let start = put_byte(space, at, b'/');
    let end = put_digits(space, start, 5, branch);
    let text = put_byte(space, end, b'/');
    let last = put_byte(space, text, first);
    put_byte(space, last, second)
}

// Writes what follows the code of an address: nothing in the short form.
pub fn put_after_code(space: &mut [u8], at: usize, a: Address) -> usize
    requires { (address_fits a ≡ true) × (at + address_length a ≤ length space.old + 5) }
    ensures { Wrote space.old at (drop 5 (address_text a)) space.new result × (result + 5 ≡ at + address_length a) }
{
    match a {
        Address::Malformed => at,
        Address::Code(_) => at,
        Address::Branch(_, branch, first, second) => put_branch(space, at, branch, first, second),
    }
}
