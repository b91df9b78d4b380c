// The bench's script: what a line of it asks for, and a line done, with all that is printed.
#![tactic(auto)]

pub mod input;
mod output;
mod parts;
pub mod turn;
