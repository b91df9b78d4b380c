// The worked values of document 01 that are marked P: one table, one proof; no code.
#![tactic(auto)]
