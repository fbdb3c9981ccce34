//! The laws of what plans mean: a plan that covers an alternative makes what the alternative allows,
//! and the plan of a part as many assignments as the part. They are lemmas, in `proofs/`, over the
//! plans of `gq_plan`: the crate has no code.
#![tactic(auto)]
