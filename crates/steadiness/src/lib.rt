// How far one bid can push another, document 02's S-5: the awards of two lists of bids, and what previews show of it. There is no code here.
#![tactic(auto)]
