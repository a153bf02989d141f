// What the iterator does on the tags of XML 1.0, and where it goes on after each answer: definitions (specs/) and
// theorems (proofs/) over those of `tag_step`. There is no code here.
#![tactic(auto)]
