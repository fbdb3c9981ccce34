//! The load of a graph from a manifest and the CSV files of its tables: the files give this stored
//! graph, or this refusal. The crate stands on `gq_manifest` and `gq_tables`, which read them, on
//! the files of `gq_io`, and on `gq_plain` and `gq_store`, which keep the rows.
#![tactic(auto)]

mod file;
mod limits;
mod loading;
mod refusal;
mod tables;

pub use limits::Limits;
pub use loading::load;
pub use refusal::LoadRefusal;
