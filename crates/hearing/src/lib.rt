// What a reply line is.
#![tactic(auto)]

mod guess;
pub mod read;
