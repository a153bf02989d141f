// Tags in pieces, as laws over the definitions of `tag_pieces`: pieces, finishes and takes in any order and number give the
// answers of what is held (`pieces_agree`), and each comes as soon as the last byte is held that its rule looks at, and no
// sooner (`take_exactly`, `look_of_answer`). Definitions (specs/) and theorems (proofs/); there is no code here.
#![tactic(auto)]
