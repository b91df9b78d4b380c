// No code: that the lines which are heard are those that a hub writes, and that what is heard of a contact is what was read of it.
#![tactic(auto)]
