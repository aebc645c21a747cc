// What a field of a session makes of the codes and the words of a journal, and the lines that it gives.
#![tactic(auto)]

mod fields;
pub mod internal;

// Whether the log has ended, whether there is a tender, and how many codes the last A0 admitted, of which the first 65 count.
#[derive(Clone, Copy)]
pub struct Standing {
    pub ended: bool,
    pub opened: bool,
    pub n: usize,
}

// How a field leaves the log, and the length of its lines.
#[derive(Clone, Copy)]
pub struct Taken {
    pub standing: Standing,
    pub length: usize,
}
