//! What an alternative demands of a plan.

/// What an alternative demands of the nodes and relationships of its variables, by number.
#[derive(Clone, Copy)]
pub enum Demand {
    /// A node of a node variable's table.
    InTable(usize),
    /// A relationship of a relationship variable's table between the nodes at its ends.
    Joins(usize),
    /// A test that is true.
    Passes(usize),
    /// A pair whose relationships are different.
    Differs(usize),
    /// A relationship that leads from a node to a different one, where loops are left out.
    IsNoLoop(usize),
}
