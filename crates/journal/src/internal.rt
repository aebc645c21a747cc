// The fields of a session taken one after the other, in codes and words that a caller lends.
ghost use Rattle.std.specs.Prelude.{◌≡◌, List, ℕ, length};
ghost use Rattle.buffer.specs.Words.{tender_words};
ghost use Rattle.log_rules.specs.Steps.{start};
ghost use Rattle.steps.specs.Viewed.{viewed, Given};
ghost use Rattle.journal.specs.Runs.{LogsIn};

use crate::fields::holds_field;
use layout::internal::length_at;
use steps::Standing;
use steps::internal::step;

// The standing before the first field, whatever the codes and words are.
pub fn standing_at_start() -> Standing
    ensures { (codes words : List ℕ) → (viewed result codes words ≡ start) × Given result words }
{
    Standing {
        ended: false,
        opened: false,
        n: 0,
    }
}

// What the standing is after a run, how many bytes of the input were taken, and the length of the lines written.
#[derive(Clone, Copy)]
pub struct Ran {
    pub standing: Standing,
    pub used: usize,
    pub length: usize,
}

// Takes the fields of the input one after the other while each is whole, the log has not ended and the space has room for any lines, and writes the lines at the start of the space.
// Each field changes codes and words where they stand.
pub fn run_in(
    standing: Standing,
    codes: &mut [u32],
    words: &mut [u64],
    input: &[u8],
    space: &mut [u8],
) -> Ran
    requires given { Given standing words.old }
    requires codes_len { (length codes.old ≡ 65) × (length words.old ≡ tender_words) }
    ensures { LogsIn (viewed standing codes.old words.old) input.now space.old result codes.new words.new space.new }
{
    let mut standing = standing;
    let mut at = 0;
    let mut length = 0;
    let room = space.len();
    // A while, since the end of the log and the room for lines end it as well as the input does.
    while holds_field(input, at) & !standing.ended & (23040 <= room - length) {
        let end = at + 3 + length_at(input, at);
        let taken = step(
            standing,
            codes,
            words,
            input[at],
            &input[at + 3..end],
            &mut space[length..room],
        );
        standing = taken.standing;
        length += taken.length;
        at = end;
    }
    Ran {
        standing,
        used: at,
        length,
    }
}
