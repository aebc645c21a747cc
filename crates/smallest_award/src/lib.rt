// The laws of awards that are given and cents that are dropped; there is no code.
#![tactic(auto)]
