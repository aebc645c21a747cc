// The session log: a journal, and the fields of a session taken into it one after the other.
#![tactic(auto)]

mod fields;
pub mod internal;

ghost use Rattle.std.specs.Prelude.{◌≡◌};
ghost use Rattle.log_rules.specs.Steps.{start};
ghost use Rattle.journal.specs.Viewed.{viewed, Given};
ghost use Rattle.journal.specs.Runs.{Logs};

use internal::run_in;
use steps::Standing;

// The codes of the last A0, the first 65 of them, and the words of the tender of the last accepted A1, if there was one.
#[derive(Clone, Copy)]
pub struct Journal {
    ended: bool,
    opened: bool,
    codes: [u32; 65],
    n: usize,
    words: [u64; 1560],
}

// The journal before the first field.
pub fn start() -> Journal
    ensures { (viewed result ≡ start) × Given result }
{
    Journal {
        ended: false,
        opened: false,
        codes: [0; 65],
        n: 0,
        words: [0; 1560],
    }
}

// Whether the log has ended.
pub fn has_ended(j: Journal) -> bool
    ensures { result ≡ (viewed j).ended }
{
    j.ended
}

// How many bytes of the input were taken, the length of the lines written, and what the journal is then.
#[derive(Clone, Copy)]
pub struct Logged {
    pub used: usize,
    pub length: usize,
    pub journal: Journal,
}

// Takes the fields of the input one after the other while each is whole, the log has not ended and the space has room for any lines, and writes the lines at the start of the space.
// Codes and words are locals here, and the run changes them where they stand.
pub fn run(j: Journal, input: &[u8], space: &mut [u8]) -> Logged
    requires { Given j }
    ensures { Logs (viewed j) input.now space.old result space.new }
{
    let standing = Standing {
        ended: j.ended,
        opened: j.opened,
        n: j.n,
    };
    let mut codes = j.codes;
    let mut words = j.words;
    let ran = run_in(standing, &mut codes, &mut words, input, space);
    let next = ran.standing;
    Logged {
        used: ran.used,
        length: ran.length,
        journal: Journal {
            ended: next.ended,
            opened: next.opened,
            codes,
            n: next.n,
            words,
        },
    }
}
