//! Trials of the program over the cases of `gq_case_text`: each is run in memory in pieces of several lengths, and each whose
//! output or status is another one is printed. They stand on `gq_shell`, whose `run` is the program, and on the files, inputs
//! and outputs in memory of `gq_io`.
#![tactic(auto)]

mod reading;
mod trial;

pub use crate::reading::{Tally, try_named};
