//! A session: the input is cut into statements at each `;` that stands in no string, quoted name or
//! comment, and each statement is answered. What is written does not depend on the pieces in which
//! the input comes. The crate stands on the sources and sinks of `gq_io`.
#![tactic(auto)]

mod answering;
mod run;
mod scan;

pub use answering::{Answerer, Tone};
pub use run::{Stop, session};
