//! Explanations: the tables of a graph, and the plans of a query, as texts. The crate stands on the
//! plans of `gq_plan`, the graph of `gq_store` and the writers of `gq_render`.
#![tactic(auto)]

mod costs;
mod counts;
mod joins;
mod naming;
mod plans;
mod schema;
mod steps;
mod trails;

pub use costs::write_costs;
pub use plans::write_plan;
pub use schema::write_schema;
