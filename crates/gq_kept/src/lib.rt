//! Which outcomes of a listing are looked at, which rows are kept of it, and which lines may answer
//! it, by DISTINCT, ORDER BY, SKIP and LIMIT; and what a table of rows stands for that takes outcomes
//! one after another. The crate has the definitions, their laws, and the few types of which they
//! speak. It stands on the bound queries of `gq_plan` and on the chunks of `gq_group`.
#![tactic(auto)]

mod form;
mod limit;
mod refusal;

pub use form::{Form, form_of};
pub use limit::may_keep;
pub use refusal::{More, RowRefusal};
