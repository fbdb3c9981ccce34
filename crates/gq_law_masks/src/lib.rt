//! The laws of masks over a stored graph: where a list is followed from a row from which none of the
//! rows is reached that a test passes, nothing comes of it. They are lemmas, in `proofs/`: the crate
//! has no code.
#![tactic(auto)]
