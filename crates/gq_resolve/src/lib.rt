//! The expressions of a query resolved: the bound expressions that their trees stand for, the
//! conjuncts of a condition, the first name or call that a check refuses, the paths of EXISTS; and
//! whether two expressions are the same.
//! The crate stands on the trees of `gq_ast` and the names of `gq_scopes`.
#![tactic(auto)]

mod calls;
mod conjuncts;
mod exists;
mod made;
mod operands;
mod path_tests;
mod renames;
mod resolution;
mod sameness;
mod source;
mod strays;
mod uses;

pub use calls::CallForm;
pub use conjuncts::{Conjuncts, conjuncts_of};
pub use exists::push_paths;
pub use made::ColumnExprs;
pub use path_tests::{NamedTest, PathTest};
pub use renames::Renamed;
pub use resolution::{resolve, resolve_part};
pub use source::source_text;
pub use strays::push_strays;
pub use uses::{Check, first_refused};
