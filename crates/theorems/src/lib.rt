// No code: what follows from the meaning of crates/meaning, theorem by theorem.
#![tactic(auto)]
