//! The laws that plans of the core of a query with trails, and trails that are walked from the
//! core's matches, make what the matches of the query make. They are lemmas, in `proofs/`: the crate
//! has no code.
#![tactic(auto)]
