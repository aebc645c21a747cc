// How far one bid can push another in previews, document 02's S-5: of the calls by value and from C. There is no code here.
#![tactic(auto)]
