//! The variables of a query.

/// A variable: those of nodes and those of relationships are counted from 0, each kind for itself.
#[derive(Clone, Copy)]
pub enum Variable {
    Node(u32),
    Rel(u32),
}
