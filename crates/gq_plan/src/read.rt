//! What an expression reads of a row.

use crate::variable::Variable;
use gq_base::Text;

/// A variable that an expression reads, or a property of it.
#[derive(Drop)]
pub struct Read {
    pub variable: Variable,
    /// The name of the property; `None` where it is the variable itself.
    pub property: Option<Text>,
}
