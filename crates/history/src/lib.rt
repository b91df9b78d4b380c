// From a fresh hub, over any calls, the hub says what the calls mean; no code.
#![tactic(auto)]
