// That each promise of a public function allows one outcome; no code.
#![tactic(auto)]
