// The calls by value and the calls in place, compared step by step on the same inputs: the answers,
// every byte of the reply space, the awards, and the tender with every word that holds it.
#![tactic(auto)]

mod calls;
mod comparing;
mod messages;
mod sessions;
mod steps;

use std::io;

fn main(rt: HostRuntime) -> io::Result<()> {
    // Document 01's session, with calls refused before and after closing.
    sessions::run(&rt, b"abcdbnortsulADBCaCAAaCV")?;
    // A tender for LA with errors and a cancellation, one without bids, and openings refused.
    sessions::run(&rt, b"LfghijckCALkCAXEN")?;
    // Branches of one code: the second at the time of the first, then later.
    sessions::run(&rt, b"vwxaCA")?;
    // Tenders revoked open and closed.
    sessions::run(&rt, b"aVasnCAVOaCVanCAV")?;
    // Previews of an empty book, after each reception, a cancellation and a closing that is refused, of the closed tender, the announced and the
    // revoked one; then of cut bids and in LA.
    sessions::run(&rt, b"PaPbPcPdPkPDPCPAPOaVP")?;
    sessions::run(&rt, b"KbPmPqPCPAMjPCPA")?;
    // Credit limits in LP with calls refused, for one code alone and in LA; then openings refused for their limits.
    sessions::run(&rt, b"KbnmkqsADBCaAACVKmCAMjCAKmVFGWYZ")
}
