//! The core of a query with trails: its patterns, cut at the trails, with the core's variables
//! first; how the trails are walked from it; and its alternatives. The crate stands on the patterns
//! of `gq_scopes` and the alternatives of `gq_alternatives`.
#![tactic(auto)]

mod choosing;
mod copies;
mod cored;
mod entries;
mod narrowing;
mod numbering;
mod parts;
mod trailed;
mod typing;

pub use copies::{push_texts, text_at};
pub use cored::{Core, core_of};
pub use entries::entry_tests;
pub use numbering::plain_rels;
pub use parts::trail_parts;
pub use trailed::{TrailPattern, Trailed};
pub use typing::core_typed;
