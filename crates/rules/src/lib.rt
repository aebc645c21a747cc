// Document 01 as definitions, and what holds of them. There is no code: a maker reads specs/, and the
// contracts of the crates above cite it.
#![tactic(auto)]
