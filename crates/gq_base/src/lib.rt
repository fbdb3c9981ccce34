//! The base types of graphq: values, which compare, sort and combine as openCypher says, and lists,
//! boxes, texts, cells, operators and the catalogue, which contracts see as plain data. Its
//! definitions say what a plain graph is and which are valid. The crate stands on std alone.
#![tactic(auto)]

mod boxed;
mod bytes;
mod catalog;
mod cell;
mod direction;
mod list;
mod literal;
mod memory;
mod operator;
mod rels;
mod rows;
mod text;
mod truth;
mod try_clone;
mod value;
mod word;

pub use boxed::Boxed;
pub use bytes::Bytes;
pub use catalog::{Catalog, Field, Kind, Mult, NodeTable, RelTable, find_field};
pub use cell::{Cell, PlainRel, Row, key_of};
pub use direction::Direction;
pub use list::List;
pub use literal::Literal;
pub use memory::Memory;
pub use operator::{ArithOp, CompareOp, TextTest};
pub use rels::{RelRef, RelRows};
pub use rows::NodeRows;
pub use text::Text;
pub use truth::{and3, not3, or3, xor3};
pub use try_clone::{TryClone, copy_all};
pub use value::{NodeId, RelId, Value, equal3, less3, order_of, same};
pub use word::{is_word_part, is_word_start, read_name, read_text};
