// A transmission in exact time, all its copies written out, and that a pace is such a one; no code.
#![tactic(auto)]
