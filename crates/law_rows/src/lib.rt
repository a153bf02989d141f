// The starred rows of document 01: specs/Rows.antt has them as one table, proofs/Starred.antt the one statement that they
// hold. There is no code here.
#![tactic(auto)]
