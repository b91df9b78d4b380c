// What a code's text means, apart from the reader's steps; no code.
#![tactic(auto)]
