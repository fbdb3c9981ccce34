//! What the names of a query stand for: its patterns with their variables, and what an expression
//! may name. The crate stands on the trees of `gq_syntax` and the bound expressions of `gq_expr`.
#![tactic(auto)]

mod copying;
mod counts;
mod elements;
mod named;
mod naming;
mod patterns;
mod reading;
mod rels;
mod renumbering;
mod scope;
mod shared;
mod variables;

pub use copying::Copying;
pub use counts::{next, number};
pub use elements::{MapEntry, NamedVariable, NodePattern, RelPattern};
pub use gq_plan::Variable;
pub use named::copy_named;
pub use naming::Names;
pub use patterns::{Pattern, PatternLists};
pub use renumbering::{Numbering, Orders, copy_expr, placed_in, renumber};
pub use scope::{Column, Scope};
pub use shared::shared_variables;
