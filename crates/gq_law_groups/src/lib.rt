//! The laws of list groups: what the walks of a layout mean, and which key each has. They are lemmas,
//! in `proofs/`: the crate has no code.
#![tactic(auto)]
