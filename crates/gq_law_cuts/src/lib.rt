//! What the core of a query with trails is, as the text says, and the laws that trails lead from it
//! to all other variables, and that its alternatives are sound. The laws are lemmas, in `proofs/`:
//! the crate has no code.
#![tactic(auto)]
