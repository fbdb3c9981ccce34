//! Plans: the steps that find the assignments of a typed alternative.

use gq_base::{Boxed, Direction, List};

/// Steps, one after another.
#[cycle(plan)]
#[derive(Drop)]
pub struct Plan {
    pub steps: List<Step>,
}

/// Plans, one for each alternative.
pub type PlanList = List<Plan>;

/// A step of a plan: what it adds to each assignment that the steps before it have made, or which assignments it
/// keeps. Nodes, relationships, tests and pairs are those of a typed alternative, by number.
#[cycle(plan)]
#[derive(Drop)]
pub enum Step {
    /// Each node of the variable's table.
    Scan {
        node: u32,
    },
    /// Each relationship at a bound node, with the node at its other end.
    Extend {
        rel: u32,
        from: u32,
        to: u32,
        direction: Direction,
    },
    /// The same, where a node has at most one such relationship.
    ColumnExtend {
        rel: u32,
        from: u32,
        to: u32,
        direction: Direction,
    },
    /// Each relationship between two bound nodes.
    Close {
        rel: u32,
        from: u32,
        to: u32,
        direction: Direction,
    },
    /// The same, where a node has at most one such relationship.
    ColumnClose {
        rel: u32,
        from: u32,
        to: u32,
        direction: Direction,
    },
    /// Each assignment of another plan that has the same nodes at the keys.
    Join {
        side: Boxed<Plan>,
        keys: List<u32>,
    },
    /// Those for which a test is true.
    Keep {
        test: u32,
    },
    /// Those in which the relationships of a pair are different.
    Differ {
        pair: u32,
    },
    /// Those in which a relationship leads from a node to a different one.
    NoLoop {
        rel: u32,
    },
}
