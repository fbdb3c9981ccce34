//! What rows that come again do to an answer: with DISTINCT nothing. The law is a lemma, in `proofs/`,
//! over what `gq_kept` says of answers: the crate has no code.
#![tactic(auto)]
