//! Values that are kept as numbers: a cell is the row of a node or the place of a relationship, and
//! what it stands for is read from the graph when it is asked for. The crate stands on the values of
//! `gq_base` and on the graph of `gq_store`, whose columns and dictionaries are those of `gq_column`
//! and `gq_dict`.
#![tactic(auto)]

mod behind;
mod cells;
mod lane;
mod property;
mod source;

pub use behind::WINDOW;
pub use cells::Cells;
pub use lane::Lane;
pub use property::{node_property, rel_places, rel_property};
pub use source::Source;
