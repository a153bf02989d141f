// What damage to quoted values does to a tag's answers (`damage_moves`), and that a step does not turn on what it does
// not look at (`next_stable`): theorems over the iterator's definitions, and no code.
#![tactic(auto)]
