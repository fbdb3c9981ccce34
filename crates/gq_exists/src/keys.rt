//! Lists of nodes, each once: by the bits of their rows where each list has one node, else as paths
//! through levels.
ghost use Rattle.std.specs.Prelude.{◌≡◌, [], OnOk, IfOk, length};
ghost use Rattle.gq_exists.specs.Made.{some_stand_on};
ghost use Rattle.gq_exists.specs.steps.Levels.{with_key};
ghost use Rattle.gq_exists.specs.steps.Stored.{AreKeys, IsWide, keys_in};
ghost use Rattle.gq_plan.specs.Keys.{has_key};

use crate::paths::Paths;
use crate::rows::Rows;
use gq_base::{Memory, NodeId};
use gq_expr::Assigned;
use std::alloc::Global;

/// Lists of so many nodes, each once, in the order of their first.
#[derive(Drop)]
pub enum Keys {
    /// Of one node each.
    Rows(Rows),
    Paths(Paths),
}

impl Keys {
    /// No lists, of so many nodes each.
    pub(crate) fn new(alloc: Global, width: usize) -> Result<Keys, Memory>
        ensures none { IfOk result (λ keys. keys_in keys ≡ []) }
        ensures wide { IfOk result (IsWide width) }
        ensures are { IfOk result AreKeys }
    {
        if width == 1 {
            return Ok(Keys::Rows(Rows::new(alloc)));
        }
        let paths = Paths::new(alloc, width)?;
        Ok(Keys::Paths(paths))
    }

    /// How many lists there are.
    pub(crate) fn len(&self) -> usize
        ensures { result ≡ length (keys_in self.now) }
    {
        match self {
            Keys::Rows(rows) => rows.len(),
            Keys::Paths(paths) => paths.len(),
        }
    }

    /// Whether a list is among them. It takes no memory.
    pub(crate) fn has(&self, key: &[NodeId]) -> bool
        requires { AreKeys self.now }
        ensures { result ≡ has_key key.now (keys_in self.now) }
    {
        match self {
            Keys::Rows(rows) => rows.has(key),
            Keys::Paths(paths) => paths.has(key),
        }
    }

    /// Whether the nodes that a row has at some variables are one of the lists. It takes no memory.
    pub(crate) fn has_at<R: Assigned>(&self, nodes: &[u32], row: &R) -> bool
        requires { AreKeys self.now }
        ensures { result ≡ some_stand_on nodes.now (R.assignment row.now) (keys_in self.now) }
    {
        match self {
            Keys::Rows(rows) => rows.has_at(nodes, row),
            Keys::Paths(paths) => paths.has_at(nodes, row),
        }
    }

    /// Adds a list, unless it is among them.
    pub(crate) fn insert(&mut self, key: &[NodeId]) -> Result<(), Memory>
        requires are { AreKeys self.old }
        requires wide { IsWide (length key.now) self.old }
        ensures keys { OnOk result (keys_in self.new ≡ with_key (keys_in self.old) key.now) }
        ensures wide { OnOk result (IsWide (length key.now) self.new) }
        ensures are { OnOk result (AreKeys self.new) }
    {
        match self {
            Keys::Rows(rows) => rows.insert(key),
            Keys::Paths(paths) => paths.insert(key),
        }
    }
}
