//! The laws of optional clauses: what plans make of a clause's alternatives are its matches, and
//! what clauses make of a row does not hang on the order in which their matches are listed. They are
//! lemmas, in `proofs/`, over the bound query of `gq_bound` and the laws of `gq_law_answers`: the
//! crate has no code.
#![tactic(auto)]
