// A code's text read into counts.
#![tactic(auto)]

mod quick;
pub mod read;
