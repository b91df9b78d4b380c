// A stream's pieces taken by an assembler, each line answered by the hub at once; no code.
#![tactic(auto)]
