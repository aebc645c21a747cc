// The address of a sender or recipient: a code of five digits, or the long form with a branch.
#![tactic(auto)]

pub mod internal;

ghost use Rattle.std.specs.Prelude.{◌≡◌};
ghost use Rattle.addresses.specs.Addresses.{is_address, code_in, code_digits, branch_in, address_fits, address_length, text_start};

// What an address holds: a code, or a code, a branch and two characters; Malformed where a byte is out of place, which is
// a case here and no Option around it, since an application is also written from the addresses that were read of another.
#[derive(Clone, Copy)]
pub enum Address {
    Malformed,
    Code(u64),
    Branch(u64, u64, u8, u8),
}

// Whether there is an address.
pub fn has_address(a: Address) -> bool
    ensures { result ≡ is_address a }
{
    match a {
        Address::Malformed => false,
        Address::Code(_) => true,
        Address::Branch(_, _, _, _) => true,
    }
}

// The code of an address, 0 where there is none.
pub fn code_of(a: Address) -> u64
    ensures { result ≡ code_in a }
{
    match a {
        Address::Malformed => 0,
        Address::Code(n) => n,
        Address::Branch(n, _, _, _) => n,
    }
}

// The code of an address, as what a digit field holds.
pub fn code_digits(a: Address) -> Option<u64>
    ensures { result ≡ code_digits a }
{
    match a {
        Address::Malformed => None,
        Address::Code(n) => Some(n),
        Address::Branch(n, _, _, _) => Some(n),
    }
}

// The branch of an address, 0 where there is none.
pub fn branch_of(a: Address) -> u64
    ensures { result ≡ branch_in a }
{
    match a {
        Address::Malformed => 0,
        Address::Code(_) => 0,
        Address::Branch(_, b, _, _) => b,
    }
}

// Whether an address can be written: its numbers have at most five digits.
pub fn address_fits(a: Address) -> bool
    ensures { result ≡ address_fits a }
{
    match a {
        Address::Malformed => false,
        Address::Code(n) => n < 100000,
        Address::Branch(n, b, _, _) => (n < 100000) & (b < 100000),
    }
}

// How many bytes an address takes.
pub fn address_length(a: Address) -> usize
    ensures { result ≡ address_length a }
{
    match a {
        Address::Malformed => 0,
        Address::Code(_) => 5,
        Address::Branch(_, _, _, _) => 14,
    }
}

// Where the two characters of a long form start.
pub fn text_start() -> usize
    ensures { result ≡ text_start }
{
    12
}
