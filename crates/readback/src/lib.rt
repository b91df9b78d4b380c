// What is written or composed is read as it was meant, and what is refused is refused by the hub with the same number; no code.
#![tactic(auto)]
