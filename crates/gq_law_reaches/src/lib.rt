//! The matches of a query with trails, which is openCypher's meaning of them as a filtered product,
//! and the laws that trails which are walked from the matches of the query's core give these
//! matches. The laws are lemmas, in `proofs/`, over the trails of `gq_law_trails`: the crate has no
//! code.
#![tactic(auto)]
