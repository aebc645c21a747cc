// Demand 3 of the calls from C: definitions and a theorem.
#![tactic(auto)]
