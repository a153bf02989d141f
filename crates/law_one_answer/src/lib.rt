// Each public contract leaves one answer and one content of lent memory: definitions (specs/) and a theorem for each public
// function (proofs/). There is no code here.
#![tactic(auto)]
