// The errors of a message, collected in the order of document 01 as their codes.
#![tactic(auto)]

pub mod internal;

ghost use Rattle.std.specs.Prelude.{◌≡◌};

// The first n of codes are the errors.
#[derive(Clone, Copy)]
pub struct Errors {
    pub codes: [u16; 16],
    pub n: usize,
}

impl Errors {
    ghost use Rattle.std.specs.Prelude.{◌==◌, [], ◌≤◌, length, take};
    ghost use Rattle.errors.specs.Listed.{listed};

    // No errors.
    pub fn none() -> Errors
        ensures { (listed result ≡ []) × (result.n ≡ 0) }
    {
        Errors {
            codes: [0u16; 16],
            n: 0,
        }
    }

    pub fn is_empty(&self) -> bool
        ensures { result ≡ (self.now.n == 0) }
    {
        self.n == 0
    }

    // The codes of the errors, in their order, at most all sixteen.
    pub fn as_slice(&self) -> &[u16]
        ensures first { result.now ≡ take self.now.n self.now.codes }
        ensures len { self.now.n ≤ 16 → length result.now ≡ self.now.n }
    {
        &self.codes[..self.n.min(16)]
    }
}
