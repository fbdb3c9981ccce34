//! Files, a source and a sink as traits whose clauses tell what moved, over memory and over the
//! system. A call fails only where its count of faults rises. The crate stands on `gq_base` alone.
#![tactic(auto)]

mod batch;
mod copying;
mod failing;
mod memory_files;
mod memory_sink;
mod memory_source;
mod nowhere;
mod outside;
mod reading;
mod real;
mod writing;

pub use batch::Batch;
pub use memory_files::{MemoryFiles, SureFiles};
pub use memory_sink::{MemorySink, SureSink};
pub use memory_source::{MemorySource, SureSource};
pub use nowhere::Nowhere;
pub use outside::{Failed, Files, Sink, Source};
pub use reading::{ReadFile, ReadStop, read_chosen};
pub use real::{RealFiles, RealSink, RealSource};
pub use writing::write_all;
