// What a proof by hand has of a call that it makes: lemmas for a walk of the code, and no code. No crate has such a walk now.
#![tactic(auto)]
