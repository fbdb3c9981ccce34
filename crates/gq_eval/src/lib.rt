//! Expressions that are evaluated over a stored graph in row after row, and what conditions say of
//! a row. Where the graph's tables have the properties that an expression reads is found once. The
//! crate stands on the expressions of `gq_expr`, the marks and reads of `gq_plan`, and the stored
//! graph of `gq_store`.
#![tactic(auto)]

mod evaluate;
mod evaluator;
mod judging;
mod named;
mod places;
mod reading;

pub use evaluator::Evaluator;
pub use judging::{Verdict, judge, judge_more};
pub use named::evaluators;
