//! The reply to one statement over a graph, which is one that the statement may have: to a query
//! its rows, to `:schema` the tables, to `:plan` the plans, and else the line that says why there
//! is none. The crate stands on `gq_syntax` and `gq_binder`, which read the statement, on
//! `gq_execute`, which answers it, and on `gq_render` and `gq_explain`, which write.
#![tactic(auto)]

mod arrows;
mod bind_line;
mod blank;
mod error_line;
mod param;
mod plans;
mod query;
mod replier;
mod spent;
mod statement;
mod tone;

pub use replier::{Extent, Replier, Workspace};
pub use spent::write_spent;
