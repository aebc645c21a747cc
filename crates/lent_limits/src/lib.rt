// No counterparty is lent more than its credit limit, document 02's S-2, whatever events a tender takes. There is no code here.
#![tactic(auto)]
