//! Cases that are written as text, line by line: what the program is given, and what it is to write. They stand on no part
//! of the program but its word for want of memory, so that they are proved beside it.
#![tactic(auto)]

mod case;
mod spelled;
mod taking;

pub use case::{Case, CaseFile, Orders, Place, Series, SeriesOf, Stop};
pub use taking::take_line;
