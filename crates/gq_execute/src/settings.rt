//! What an answer depends on beside the graph and the query.

use gq_order::Order;

/// What an answer depends on beside the graph and the query.
#[derive(Clone, Copy, Debug, PartialEq, Eq)]
pub struct Settings {
    /// The order of the plans.
    pub order: Order,
    /// The most rows that are kept, and the most assignments that a part may have, keys the path
    /// of a test, and matches an alternative of an optional clause. How many bytes they take is
    /// not bounded.
    pub rows: u32,
}
