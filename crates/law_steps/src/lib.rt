// What one step of the iterator answers and leaves, as laws over `next_of`: when the end and refusals 6 and 7 come, document
// 01's column "Leaves" row by row, that each answer moves reading on and that the end stays; and that quick-xml's branches
// for a quote after a duplicate's `=` are not taken. Definitions (specs/) and theorems (proofs/) over those of `tag_step`; there
// is no code here.
#![tactic(auto)]
