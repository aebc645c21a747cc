// Credit limits on investments, document 02's S-2: its walk step by step, and what holds of the cut bids. There is no code here.
#![tactic(auto)]
