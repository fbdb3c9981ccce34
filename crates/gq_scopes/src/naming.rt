//! Names in their order, each found without going through those before it.
ghost use Rattle.std.specs.Prelude.{◌≡◌, ◌++◌, ◌∷◌, ◌<◌, [], length, Some, IfOk, IfSome, OnOk};
ghost use Rattle.std.specs.Prelude.{OnErr};
ghost use Rattle.std.specs.List.{list_any};
ghost use Rattle.gq_scopes.specs.Patterns as patterns;

use gq_base::{Memory, Text, TryClone};
use std::alloc::Global;
use std::collections::BTreeMap;
use std::marker::Model;

/// Names in their order, some of which may be missing. A map gives the first place of each name.
#[derive(Drop)]
pub struct Names {
    alloc: Global,
    list: Vec<Option<Text>>,
    places: BTreeMap<Text, usize>,
}

impl Model for Names {
    ghost use Rattle.std.specs.Prelude.{◌≡◌, List, Option};
    ghost use Rattle.std.specs.BTreeMap.{get};
    ghost use Rattle.std.specs.Cmp.Lexicographic.{slice_cmp};
    ghost use Rattle.std.specs.Ordering.{nat_cmp};
    ghost use Rattle.gq_scopes.specs.Patterns.{Name, find_name};

    ghost Value = { List (Option Name) };

    ghost view = { λ n. n.list.items };

    ghost invariant = { λ n. (name : Name)
        → get (slice_cmp nat_cmp) n.places name ≡ find_name n.list.items name };
}

impl Names {
    /// No names yet.
    pub fn new(alloc: Global) -> Names
        ensures { result ≡ [] }
    {
        Names {
            alloc,
            list: Vec::new(alloc),
            places: BTreeMap::new(alloc),
        }
    }

    /// How many names there are, missing ones too.
    pub fn len(&self) -> usize
        ensures { result ≡ length self.now }
    {
        self.list.len()
    }

    /// The names.
    pub fn as_slice(&self) -> &[Option<Text>]
        ensures { result.now ≡ self.now }
    {
        self.list.as_slice()
    }

    /// The first place of a name.
    pub fn find(&self, name: &Text) -> Option<usize>
        ensures value { result ≡ patterns.find_name self.now name.now }
        ensures within { IfSome result (λ at. at < length self.now) }
    {
        self.places.get(name).copied()
    }

    /// Whether a name stands among them.
    pub fn contains(&self, name: &Text) -> bool
        ensures { result ≡ list_any (patterns.is_called name.now) self.now }
    {
        self.find(name).is_some()
    }

    /// Appends a name, or a missing one. After `Memory` the names are as before.
    pub fn push(&mut self, name: &Option<Text>) -> Result<(), Memory>
        ensures pushed { IfOk result (λ _. self.new ≡ self.old ++ name.now ∷ []) }
        ensures kept { OnErr result (self.new ≡ self.old) }
    {
        match name {
            Some(name) => self.push_name(name),
            None => push_item(&mut self.list, None),
        }
    }

    /// Appends a name. After `Memory` the names are as before.
    pub fn push_name(&mut self, name: &Text) -> Result<(), Memory>
        ensures pushed { IfOk result (λ _. self.new ≡ self.old ++ Some name.now ∷ []) }
        ensures kept { OnErr result (self.new ≡ self.old) }
    {
        let item = name.try_clone(self.alloc)?;
        if self.places.contains_key(name) {
            return push_item(&mut self.list, Some(item));
        }
        let key = name.try_clone(self.alloc)?;
        let place = self.len();
        push_item(&mut self.list, Some(item))?;
        match self.places.insert(key, place) {
            Ok(_) => Ok(()),
            Err(_) => {
                let _ = self.list.pop();
                Err(Memory::Exhausted)
            }
        }
    }
}

fn push_item(list: &mut Vec<Option<Text>>, item: Option<Text>) -> Result<(), Memory>
    ensures pushed { OnOk result (list.new.items ≡ list.old.items ++ item ∷ []) }
    ensures kept { OnErr result (list.new.items ≡ list.old.items) }
{
    match list.push(item) {
        Ok(()) => Ok(()),
        Err(_) => Err(Memory::Exhausted),
    }
}
