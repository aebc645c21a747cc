// The line of a reception, and one field of any kind.
ghost use Rattle.std.specs.Prelude.{◌≡◌, true, ℕ, ◌≤◌, length, drop, IfOk};
ghost use Rattle.std.proofs.Math.Option.{none};
ghost use Rattle.output.specs.Output.{Wrote};
ghost use Rattle.rules.specs.Calls.{answer_to};
ghost use Rattle.refusals.specs.Conditions.{refusal_number};
ghost use Rattle.layout.specs.Fields.{readable};
ghost use Rattle.envelope.specs.Application.{layout6_g1};
ghost use Rattle.errors.specs.Listed.{listed};
ghost use Rattle.buffer.specs.Words.{tender_words};
ghost use Rattle.log_rules.specs.Steps.{answer_line, step};
ghost use Rattle.steps.specs.Viewed.{viewed, Ready, Takes, answer_told};

use crate::fields::{admission, allotting, announcement, closing, ended, reception, revocation};
use crate::{Standing, Taken};
use errors::Errors;
use lines::internal::{put_confirmed, put_refused, put_returned};
use refusals::Refusal;

// Writes the line of a reception that is not refused.
fn put_told(space: &mut [u8], s: &[u8], m: &[u8], e: Errors) -> usize
    requires m_value { readable layout6_g1 m.now ≡ true }
    requires n_bound { (e.n ≤ 16) × (14 ≤ length s.now) × (74 ≤ length space.old) }
    requires m_value_2 { m.now ≡ drop 14 s.now }
    ensures { (k : ℕ) → Wrote space.old 0 (answer_line (answer_to (listed e) k) s.now) space.new result }
{
    if e.n == 0 {
        return put_confirmed(space, s, m);
    }
    put_returned(space, s, m, e)
}

// Writes the line of a reception.
pub fn put_answer(space: &mut [u8], s: &[u8], m: &[u8], answer: Result<Errors, Refusal>) -> usize
    requires m_value { refusal_number answer ≡ none → readable layout6_g1 m.now ≡ true }
    requires n_bound { IfOk answer (λ e. e.n ≤ 16) × (14 ≤ length s.now) × (74 ≤ length space.old) }
    requires m_value_2 { m.now ≡ drop 14 s.now }
    ensures { (k : ℕ) → Wrote space.old 0 (answer_line (answer_told answer k) s.now) space.new result }
{
    match answer {
        Ok(e) => put_told(space, s, m, e),
        Err(refusal) => put_refused(space, refusals::number_of(refusal)),
    }
}

// Takes one field, its tag and contents, and writes its lines at the start of the space, which has room for 640 of them.
// The first n of the codes are those of the last A0; the words are those of the tender, if there is one.
pub fn step(
    standing: Standing,
    codes: &mut [u32],
    words: &mut [u64],
    tag: u8,
    s: &[u8],
    space: &mut [u8],
) -> Taken
    requires ready { Ready standing words.old }
    requires codes_len { (length codes.old ≡ 65) × (length words.old ≡ tender_words) × (23040 ≤ length space.old) }
    ensures { Takes (step (viewed standing codes.old words.old) tag s.now) space.old result codes.new words.new space.new }
{
    match tag {
        0xA0 => admission(standing, codes, s),
        0xA1 => announcement(standing, codes, words, s, space),
        0xA2 => reception(standing, words, s, space),
        0xA3 => closing(standing, words, s, space),
        0xA4 => revocation(standing, words, s, space),
        0xA5 => allotting(standing, words, s, space),
        _ => ended(standing),
    }
}
