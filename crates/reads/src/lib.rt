// No code: that a line and a code are read as the table of crates/meaning reads them.
#![tactic(auto)]
