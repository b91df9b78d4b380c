// Writes a code's text and a sendir line, plain or lettered, into a lent buffer.
#![tactic(auto)]

// Plain text spells every pair; lettered text writes each later occurrence of a lettered pair as its letter.
#[derive(Clone, Copy)]
pub enum Form {
    Plain,
    Lettered,
}

mod codetext;
pub mod sendir;
