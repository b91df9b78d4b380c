// No code: what each call means, in specs/.
#![tactic(auto)]
