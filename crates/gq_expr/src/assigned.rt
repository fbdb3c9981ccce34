//! What a row gives the variables of an expression.
ghost use Rattle.std.specs.Prelude.{◌≡◌};
ghost use Rattle.gq_expr.specs.Reading.{Assignment};

use gq_base::{NodeId, RelId};

/// The nodes and relationships that a row gives the variables.
pub trait Assigned {
    ghost assignment: { Self → Assignment };

    /// The node of a variable, or `None` where the row has none.
    fn node(&self, variable: u32) -> Option<NodeId>
        ensures { result ≡ (assignment self.now).nodes variable };

    /// The relationship of a variable, or `None` where the row has none.
    fn rel(&self, variable: u32) -> Option<RelId>
        ensures { result ≡ (assignment self.now).rels variable };
}
