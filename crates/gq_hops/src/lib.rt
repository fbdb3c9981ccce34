//! The walks of one trail over a stored graph: relationships of one type that follow one another from
//! a node, of which none stands twice. Where it is known at which nodes they have to end, a search
//! backward from there says where they need not go on. And the nodes to which such a trail leads, each
//! once, by breadth-first search. The crate stands on the stored graph of `gq_store`.
#![tactic(auto)]

mod aim;
mod follow;
mod hop;
mod reach;
mod reacher;
mod search;
mod state;
mod used;
mod walker;

pub use reacher::Reacher;
pub use state::{State, state_after};
pub use walker::Walker;
