// What asks for a 6G0 that was found readable.
ghost use Rattle.std.specs.Prelude.{◌≡◌, true, length};
ghost use Rattle.digits.specs.Decimal.{digits_of};
ghost use Rattle.layout.specs.Fields.{IsOneOf, at_most, readable};
ghost use Rattle.announcement.specs.Announcement.{entry_of, layout6_g0, position, bytes_of};

use crate::Field;
use digits::internal::number;
use layout::internal::contents;

// The place of a field in the layout of a 6G0.
pub fn position_of(f: Field) -> usize
    ensures { result ≡ position f }
{
    match f {
        Field::MessageType => 0,
        Field::Sender => 1,
        Field::Recipient => 2,
        Field::Cro => 3,
        Field::Date => 4,
        Field::Time => 5,
        Field::Identifier => 6,
        Field::TenderType => 7,
        Field::Characteristics => 8,
        Field::SpotDate => 9,
        Field::ForwardDate => 10,
        Field::Cutoff => 11,
    }
}

// The bytes of a field of a readable 6G0, as many as one of the lengths of its entry.
pub fn bytes_in(m: &[u8], f: Field) -> &[u8]
    requires { readable layout6_g0 m.now ≡ true }
    ensures { (result.now ≡ bytes_of f m.now) × IsOneOf (entry_of f).lengths (length result.now) }
{
    contents(m, position_of(f))
}

// What a digit field of a readable 6G0 holds.
pub fn digits_in(m: &[u8], f: Field) -> Option<u64>
    requires m_value { readable layout6_g0 m.now ≡ true }
    requires f_value { at_most 19 (entry_of f).lengths ≡ true }
    ensures { result ≡ digits_of (bytes_of f m.now) }
{
    number(bytes_in(m, f))
}
