//! Relationship patterns, each found by its name.
ghost use Rattle.std.specs.Prelude.{◌≡◌, ◌++◌, ◌∷◌, ◌<◌, [], length, map};
ghost use Rattle.std.specs.Prelude.{IfOk, IfSome};
ghost use Rattle.gq_scopes.specs.Patterns as patterns;

use crate::elements::RelPattern;
use crate::naming::Names;
use gq_base::{List, Memory, Text};
use std::alloc::Global;
use std::marker::Model;

/// The relationship patterns in text order, each found by its name.
#[derive(Drop)]
pub struct Rels<'t> {
    list: Vec<RelPattern<'t>>,
    names: Names,
}

impl<'t> Model for Rels<'t> {
    ghost use Rattle.std.specs.Prelude.{◌≡◌, List, map};
    ghost use Rattle.gq_scopes.specs.Patterns.{RelPattern};

    ghost Value = { List RelPattern };

    ghost view = { λ r. r.list.items };

    ghost invariant = { λ r. r.names ≡ map (λ p. p.part.name) r.list.items };
}

impl<'t> Rels<'t> {
    /// None yet.
    pub fn new(alloc: Global) -> Rels<'t>
        ensures { result ≡ [] }
    {
        Rels {
            list: Vec::new(alloc),
            names: Names::new(alloc),
        }
    }

    /// How many there are.
    pub fn len(&self) -> usize
        ensures { result ≡ length self.now }
    {
        self.list.len()
    }

    /// The patterns.
    pub fn as_slice(&self) -> &[RelPattern<'t>]
        ensures { result.now ≡ self.now }
    {
        self.list.as_slice()
    }

    /// The first with a name.
    pub fn find(&self, name: &Text) -> Option<usize>
        ensures value { result ≡ patterns.find_name (map (λ p. p.part.name) self.now) name.now }
        ensures within { IfSome result (λ at. at < length self.now) }
    {
        self.names.find(name)
    }

    /// Appends one. After `Memory` they are as before.
    pub(crate) fn push(&mut self, rel: RelPattern<'t>) -> Result<(), Memory>
        ensures { IfOk result (λ _. self.new ≡ self.old ++ rel.entry ∷ []) }
    {
        let part = rel.part;
        match self.list.push(rel) {
            Ok(()) => {}
            Err(_) => return Err(Memory::Exhausted),
        }
        match self.names.push(&part.name) {
            Ok(()) => Ok(()),
            Err(memory) => {
                let _ = self.list.pop();
                Err(memory)
            }
        }
    }
}

/// Relationship patterns of a list.
pub(crate) fn rels_of<'t>(alloc: Global, list: List<RelPattern<'t>>) -> Result<Rels<'t>, Memory>
    ensures { IfOk result (λ rels. rels ≡ list.entry) }
{
    let mut rels = Rels::new(alloc);
    for rel in list.into_vec() {
        rels.push(rel)?;
    }
    Ok(rels)
}
