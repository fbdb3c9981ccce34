//! What the fields of a graph's CSV files spell: the header of a table, and the values of its
//! records. The crate stands on `gq_base` alone.
#![tactic(auto)]

mod field;
mod header;

pub use field::{BadField, read_flag, read_int, read_text};
pub use header::{FileKind, HeaderRefusal, read_header};
