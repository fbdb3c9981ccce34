//! The rows that the CSV files of a graph give: one table of nodes or of relationships, or its first
//! refusal. The crate stands on `csv`, which cuts records, and on the headers and fields of
//! `gq_fields`.
#![tactic(auto)]

mod batch;
mod cells;
mod header;
mod key_index;
mod key_map;
mod keys;
mod near_keys;
mod nodes;
mod records;
mod refusal;
mod rels;
mod repeats;
mod sides;
mod slots;

pub use keys::End;
pub use nodes::{NodeTableRows, read_nodes};
pub use refusal::{TableRefusal, TableStop};
pub use rels::{RelTableRows, read_rels, read_rels_within};
