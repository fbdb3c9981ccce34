//! What a query makes of an assignment, before it is known which rows are kept: the conjuncts that
//! are left and the tests leave it out, or it faults, or its columns and its keys give the values of a
//! row. The crate stands on the bound queries of `gq_plan`, on the evaluators of `gq_eval` and on the
//! tests of lanes of `gq_filter`, and answers in the words of `gq_kept`.
#![tactic(auto)]

mod admitting;
mod conjunct;
mod judging;
mod reading;

pub use admitting::{Admits, Everything};
pub use conjunct::{Conjunct, conjuncts};
pub use judging::{Question, check, check_late, judge};
pub use reading::Reading;
