//! Executes a bound query over a stored graph: it is answered as openCypher's meaning permits, with
//! its rows or with why it has none. The crate stands on the plans of `gq_order`, the pipelines of
//! `gq_pipe`, the tests of `gq_exists`, the optional clauses of `gq_optional`, and `gq_drain`, which
//! drains a pipeline into the lines of `gq_rows`; and on the laws of `gq_law_cores` and
//! `gq_law_clauses`, by which these are of all matches of the query.
#![tactic(auto)]

mod answering;
mod clauses;
mod found;
mod planning;
mod prepared;
mod refusal;
mod settings;
mod testing;

pub use answering::answer;
pub use found::Answer;
pub use planning::{QueryPlans, plans};
pub use refusal::AnswerRefusal;
pub use settings::Settings;
