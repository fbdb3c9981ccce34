//! Where trails lead, each node once: which nodes walks of a trail end at, breadth-first search for
//! them as a law, and that rows at these nodes stand for all rows of a last trail. The laws are
//! lemmas, in `proofs/`, over the trails of `gq_law_trails`: the crate has no code.
#![tactic(auto)]
