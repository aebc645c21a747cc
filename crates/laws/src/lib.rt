#![tactic(auto)]

// Laws that the proofs of several crates cite, about tests and about filling an array. There is no code.
