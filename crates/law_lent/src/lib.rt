// Calls one after another on lent memory: definitions (specs/) and theorems (proofs/) over those of `scope_table` and
// `law_scopes`. There is no code here.
#![tactic(auto)]
