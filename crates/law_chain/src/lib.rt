// What a name means after a chain of well-formed tags (`innermost_declares`): a theorem over the definitions of
// `scope_push` and `scope_lookup`, and no code.
#![tactic(auto)]
