// The steps of a reception that is not refused.
ghost use Rattle.std.specs.Prelude.{◌≡◌, true, ◌&&◌, ◌≤◌, length};
ghost use Rattle.calendar.specs.Calendar.{valid_date, valid_time};
ghost use Rattle.layout.specs.Fields.{readable};
ghost use Rattle.output.specs.Output.{Wrote};
ghost use Rattle.envelope.specs.Application.{layout6_g1, fields_of};
ghost use Rattle.rules.specs.Calls.{reply_space, reply};
ghost use Rattle.errors.specs.Listed.{listed};
ghost use Rattle.reception.specs.Submission.{Returns};

use checks::internal::errors_of;
use envelope::application::{Field, Fields};
use envelope::internal::bytes_in;
use errors::Errors;
use errors::internal::with;
use replies::internal::{put_confirmation, put_returned};
use terms::Terms;

// The errors with which a readable message with the fields f is returned, received on a day and at a second; found and taken say where its code stands
// in a book, and whether the book takes its time.
pub fn returned_errors(
    m: &[u8],
    f: Fields,
    t: Terms,
    found: Option<usize>,
    taken: bool,
    day: u64,
    second: u64,
) -> Errors
    requires m_value { readable layout6_g1 m.now ≡ true }
    requires f_value { f ≡ fields_of m.now }
    requires second_value { (valid_date day && valid_time second) ≡ true }
    ensures { Returns t f found taken m.now day second result }
{
    let e = errors_of(m, t, f, found.is_some(), day, second);
    let late = e.is_empty() & !taken;
    with(e, late, 302)
}

// Writes the reply to a readable message, and gives its length.
pub fn put_reply(space: &mut [u8], m: &[u8], t: Terms, time: u64, e: Errors) -> usize
    requires m_value { readable layout6_g1 m.now ≡ true }
    requires n_bound { (e.n ≤ 16) × (reply_space ≤ length space.old) }
    ensures { Wrote space.old 0 (reply (listed e) t.identifier m.now time) space.new result }
{
    if !e.is_empty() {
        return put_returned(space, m, e);
    }
    let identifier = t.identifier;
    put_confirmation(
        space,
        b"6G2",
        bytes_in(m, Field::Sender),
        bytes_in(m, Field::Cro),
        time,
        &identifier,
    )
}
