// The session log of document 01 as definitions and theorems; there is no code here.
#![tactic(auto)]
