//! Trails over a stored graph: all ways to walk the trails of a query, one after another, and the rows
//! by which they continue a row. The walks of each are those of `gq_hops`, and so are the nodes to
//! which a trail leads.
#![tactic(auto)]

mod chain;
mod ends;
mod reached;
mod rows;
mod taken;
mod trails;
mod trek;

pub use rows::TrailRows;
pub use trails::Trails;
