// Whatever is asked of one connector: its answer, and its change.
#![tactic(auto)]

mod answers;
mod send;
pub mod step;
