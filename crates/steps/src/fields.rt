// One kind of field each: what it makes of the codes and the words, and its lines.
ghost use Rattle.std.specs.Prelude.{◌≡◌, true, List, ℕ, ◌≤◌, length};
ghost use Rattle.output.specs.Output.{Wrote};
ghost use Rattle.refusals.specs.Conditions.{refusal_number};
ghost use Rattle.buffer.specs.Words.{tender_words, tender_in, is_tender};
ghost use Rattle.log_rules.specs.Steps.{refusal, allotted, admission_step, announcement_step, reception_step, closing_step, revocation_step, allotting_step};
ghost use Rattle.steps.specs.Viewed.{viewed, Given, Ready, Takes, Calls, ended_at};

use crate::internal::put_answer;
use crate::{Standing, Taken};
use award_lines::internal::put_awards;
use buffer_opening::internal::open_in;
use digits::all_digits;
use in_place::internal::{allot_in, close_in, leave_in, outcome_in, revoke_in};
use lines::internal::put_refused;
use refusals::Refusal;
use session_fields::internal::{codes_in, date_of, time_of};

// A field that ends the log.
pub fn ended(standing: Standing) -> Taken
    ensures { result ≡ ended_at standing }
{
    Taken {
        standing: Standing {
            ended: true,
            ..standing
        },
        length: 0,
    }
}

// A0: the codes admitted to the next tender.
pub fn admission(standing: Standing, codes: &mut [u32], s: &[u8]) -> Taken
    requires { length codes.old ≡ 65 }
    ensures { (words space : List ℕ) → Given standing words → Takes (admission_step (viewed standing codes.old words) s.now) space result codes.new words space }
{
    if (s.len() % 5 == 0) & all_digits(s) {
        let n = (s.len() / 5).min(65);
        let admitted = codes_in(s, n);
        codes[..n].copy_from_slice(&admitted[..n]);
        return Taken {
            standing: Standing {
                ended: false,
                opened: standing.opened,
                n,
            },
            length: 0,
        };
    }
    ended(standing)
}

// A1: an announcement. The codes of a log come without limits: it opens with a zero for each.
pub fn announcement(
    standing: Standing,
    codes: &[u32],
    words: &mut [u64],
    s: &[u8],
    space: &mut [u8],
) -> Taken
    requires ready { Ready standing words.old }
    requires codes_len { (length codes.now ≡ 65) × (tender_words ≤ length words.old) × (11 ≤ length space.old) }
    ensures { Takes (announcement_step (viewed standing codes.now words.old) s.now) space.old result codes.now words.new space.new }
{
    let n = standing.n;
    let zeros = [0u64; 65];
    match open_in(words, s, &codes[0..n], &zeros[0..n]) {
        Ok(()) => Taken {
            standing: Standing {
                ended: false,
                opened: true,
                n,
            },
            length: 0,
        },
        Err(refusal) => {
            let length = put_refused(space, terms::number_of(refusal));
            Taken { standing, length }
        }
    }
}

// A2: a reception.
pub fn reception(standing: Standing, words: &mut [u64], s: &[u8], space: &mut [u8]) -> Taken
    requires ready { Ready standing words.old }
    requires in_bounds { 74 ≤ length space.old }
    ensures { (codes : List ℕ) → Takes (reception_step (viewed standing codes words.old) s.now) space.old result codes words.new space.new }
{
    if s.len() < 14 {
        return ended(standing);
    }
    let opened = standing.opened;
    if !opened {
        return Taken {
            standing,
            length: 0,
        };
    }
    let m = &s[14..s.len()];
    match outcome_in(words, m, date_of(s), time_of(s), 436) {
        Ok(outcome) => {
            let length = put_answer(space, s, m, Ok(outcome.errors));
            leave_in(words, outcome);
            Taken { standing, length }
        }
        Err(refusal) => {
            let length = put_answer(space, s, m, Err(refusal));
            Taken { standing, length }
        }
    }
}

// Writes the line of a refusal; where a call is not refused there is none.
fn put_refusal(space: &mut [u8], answer: Result<(), Refusal>) -> usize
    requires { 11 ≤ length space.old }
    ensures { Wrote space.old 0 (refusal (refusal_number answer)) space.new result }
{
    match answer {
        Ok(()) => 0,
        Err(r) => put_refused(space, refusals::number_of(r)),
    }
}

// A3: closing.
pub fn closing(standing: Standing, words: &mut [u64], s: &[u8], space: &mut [u8]) -> Taken
    requires ready { Ready standing words.old }
    requires in_bounds { 11 ≤ length space.old }
    ensures { (codes : List ℕ) → Takes (closing_step (viewed standing codes words.old) s.now) space.old result codes words.new space.new }
{
    if s.len() != 14 {
        return ended(standing);
    }
    if !standing.opened {
        return Taken {
            standing,
            length: 0,
        };
    }
    let answer = close_in(words, date_of(s), time_of(s));
    let length = put_refusal(space, answer);
    Taken { standing, length }
}

// A4: revocation.
pub fn revocation(standing: Standing, words: &mut [u64], s: &[u8], space: &mut [u8]) -> Taken
    requires ready { Ready standing words.old }
    requires in_bounds { 11 ≤ length space.old }
    ensures { (codes : List ℕ) → Takes (revocation_step (viewed standing codes words.old) s.now) space.old result codes words.new space.new }
{
    if s.len() != 0 {
        return ended(standing);
    }
    if !standing.opened {
        return Taken {
            standing,
            length: 0,
        };
    }
    let answer = revoke_in(words);
    let length = put_refusal(space, answer);
    Taken { standing, length }
}

// Allots and writes the lines of the awards, or that of the refusal.
fn put_allotment(words: &mut [u64], space: &mut [u8]) -> usize
    requires { (is_tender words.old ≡ true) × (23040 ≤ length space.old) }
    ensures { Calls allotted words.old space.old words.new result space.new }
{
    let mut awards = [0u64; 640];
    if let Err(r) = allot_in(words, &mut awards) {
        return put_refused(space, refusals::number_of(r));
    }
    let n = words[2] as usize;
    put_awards(
        space,
        &words[24..24 + n],
        &words[216..216 + 10 * n],
        &awards[0..10 * n],
    )
}

// A5: allotment.
pub fn allotting(standing: Standing, words: &mut [u64], s: &[u8], space: &mut [u8]) -> Taken
    requires ready { Ready standing words.old }
    requires in_bounds { 23040 ≤ length space.old }
    ensures { (codes : List ℕ) → Takes (allotting_step (viewed standing codes words.old) s.now) space.old result codes words.new space.new }
{
    if s.len() != 0 {
        return ended(standing);
    }
    if !standing.opened {
        return Taken {
            standing,
            length: 0,
        };
    }
    let length = put_allotment(words, space);
    Taken { standing, length }
}
