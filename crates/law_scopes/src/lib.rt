// What a sequence of calls leaves of a resolver, and that quick-xml's branch of `set_level` that clears everything is not taken:
// definitions (specs/) and theorems (proofs/) over those of `scope_table`, `scope_change`, `scope_declare` and `scope_push`. There
// is no code here.
#![tactic(auto)]
