// The crate's hash set of recorded keys, which is not ported: for every function from names to numbers it answers as the
// plain search does (`any_hash_agrees`). And the filter before our own search, for three hashes that may collide (`fnv_agrees`,
// `cut_agrees`, `crate_hash_agrees`). Theorems over the definitions of `keys`, and no code.
#![tactic(auto)]
