//! The relationships that the trail whose turn has come may not take.
ghost use Rattle.std.specs.Prelude.{◌≡◌, ◌+◌, ◌<◌, ◌≤◌, ◌++◌, ◌∷◌, [], length, IfOk};

use gq_base::{Memory, RelId};
use std::alloc::Global;
use std::marker::Model;

/// Up to 384 relationships, one after another. There is room for them from the start.
#[derive(Drop)]
pub(crate) struct Taken {
    rels: Vec<RelId>,
    count: usize,
}

/// The most of them: those of 24 trails of at most 16.
const MAX_TAKEN: usize = 384;

impl Model for Taken {
    ghost use Rattle.std.specs.Prelude.{List, take, length, ◌≤◌, ◌≡◌};
    ghost use Rattle.gq_base.specs.declared.RelId.{RelId as Rel};

    ghost Value = { List Rel };

    ghost view = { λ t. take t.count t.rels.items };

    ghost invariant = { λ t. (t.count ≤ 384) × (length t.rels.items ≡ 384) };
}

impl Taken {
    /// Room for them; none is there.
    pub(crate) fn new(alloc: Global) -> Result<Taken, Memory>
        ensures { IfOk result (λ taken. taken ≡ []) }
    {
        let rel = RelId { table: 0, row: 0 };
        Ok(Taken {
            rels: vec![in alloc; rel; MAX_TAKEN]?,
            count: 0,
        })
    }

    /// From now on none is there.
    pub(crate) fn clear(&mut self)
        ensures { self.new ≡ [] }
    {
        self.count = 0;
    }

    /// Adds one.
    pub(crate) fn push(&mut self, rel: RelId)
        requires { length self.old < 384 }
        ensures { self.new ≡ self.old ++ rel ∷ [] }
    {
        self.rels[self.count] = rel;
        self.count += 1;
    }

    /// Adds several.
    pub(crate) fn push_all(&mut self, rels: &[RelId])
        requires { length self.old + length rels.now ≤ 384 }
        ensures { self.new ≡ self.old ++ rels.now }
    {
        'each: for rel in rels {
            self.push(*rel);
        }
    }

    /// All of them.
    pub(crate) fn as_slice(&self) -> &[RelId]
        ensures { result.now ≡ self.now }
    {
        &self.rels[..self.count]
    }
}
