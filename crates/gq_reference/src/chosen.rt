//! An assignment while it is tested: its nodes and its relationships are borrowed.
ghost use Rattle.std.specs.Prelude.{◌≡◌, slice_get, IfOk};

use crate::brute_force::Match;
use gq_base::{List, Memory, NodeId, RelId};
use std::alloc::Global;
use std::marker::Model;

/// A node for each node variable and a relationship for each relationship variable.
#[derive(Drop)]
pub(crate) struct Chosen<'a> {
    pub(crate) nodes: &'a [NodeId],
    pub(crate) rels: &'a [RelId],
}

impl<'a> Model for Chosen<'a> {
    ghost use Rattle.gq_plan.specs.Assignments.{Assignment};

    ghost Value = { Assignment };

    ghost view = { λ c. record { nodes = c.nodes.now; rels = c.rels.now } };
}

impl Chosen<'_> {
    /// The node of a variable.
    pub(crate) fn node(&self, variable: u32) -> Option<NodeId>
        ensures { result ≡ slice_get self.now.nodes variable }
    {
        self.nodes.get(variable as usize).copied()
    }

    /// The relationship of a variable.
    pub(crate) fn rel(&self, variable: u32) -> Option<RelId>
        ensures { result ≡ slice_get self.now.rels variable }
    {
        self.rels.get(variable as usize).copied()
    }

    /// The assignment as a match, copied.
    pub(crate) fn to_match(&self, alloc: Global) -> Result<Match, Memory>
        ensures { IfOk result (λ m. m ≡ self.now) }
    {
        Ok(Match {
            nodes: List::from_vec(Vec::from_slice(alloc, self.nodes)?),
            rels: List::from_vec(Vec::from_slice(alloc, self.rels)?),
        })
    }
}
