//! Keys that are gathered from chunks.
ghost use Rattle.std.specs.Prelude.{◌≡◌, ◌≢◌, ◌≤◌, ◌∷◌, ◌&&◌, [], IfOk, OnOk, length, nat_eq};
ghost use Rattle.gq_exists.specs.steps.Gathered.{Gathers, IsGathering, key_at, keys_at};
ghost use Rattle.gq_exists.specs.steps.Settled.{IsItem};
ghost use Rattle.gq_exists.specs.steps.Stored.{keys_in};
ghost use Rattle.gq_group.specs.Chunks.{IsChunk};
ghost use Rattle.gq_group.specs.Groups.{AreSelected, choices};
ghost use Rattle.gq_plan.specs.Keys.{has_key};

use crate::keys::Keys;
use crate::settled::{are_settled, item_group};
use gq_base::{Memory, NodeId};
use gq_group::{Choice, Chunk};
use gq_join::JoinRefusal;
use gq_plan::Typed;
use std::alloc::Global;

/// The keys that came so far, of so many nodes each, and how many there may be.
#[derive(Drop)]
pub struct Gathering {
    pub(crate) keys: Keys,
    pub(crate) width: u32,
    pub(crate) limit: u32,
}

impl Gathering {
    /// No keys yet.
    pub(crate) fn new(alloc: Global, width: u32, limit: u32) -> Result<Gathering, Memory>
        ensures is { IfOk result IsGathering }
        ensures width { IfOk result (λ g. g.width ≡ width) }
        ensures limit { IfOk result (λ g. g.limit ≡ limit) }
        ensures none { IfOk result (λ g. keys_in g.keys ≡ []) }
    {
        let keys = Keys::new(alloc, width as usize)?;
        Ok(Gathering { keys, width, limit })
    }

    /// Whether no further key can differ from those that came: each has no nodes, and there is one.
    pub(crate) fn is_full(&self) -> bool
        requires { IsGathering self.now }
        ensures { result ≡ (nat_eq self.now.width 0 && has_key [] (keys_in self.now.keys)) }
    {
        self.width == 0 && self.keys.has(&[])
    }

    // Takes a key.
    fn take(&mut self, key: &[NodeId]) -> Result<(), JoinRefusal>
        requires is { IsGathering self.old }
        requires wide { length key.now ≡ self.old.width }
        ensures { Gathers (key.now ∷ []) self.old self.new result }
    {
        self.keys.insert(key)?;
        if self.keys.len() > self.limit as usize {
            return Err(JoinRefusal::TooManyRows { limit: self.limit });
        }
        Ok(())
    }

    // Takes the key at one selected position of each group of a chunk.
    fn take_at(
        &mut self,
        key: &mut Vec<NodeId>,
        chunk: &Chunk<'_, '_>,
        positions: &[u32],
        typed: &Typed,
    ) -> Result<(), JoinRefusal>
        requires is { IsGathering self.old }
        requires chunk { IsChunk chunk.now }
        requires selected { AreSelected chunk.now.groups.now positions.now }
        requires wide { self.old.width ≤ length typed.now.nodes }
        ensures { let here = key_at typed.now self.old.width chunk.now positions.now in
            Gathers (here ∷ []) self.old self.new result }
    {
        read_key(key, self.width, chunk, positions, typed)?;
        self.take(key.as_slice())
    }

    // Takes the keys at all choices of a chunk.
    fn take_each(
        &mut self,
        key: &mut Vec<NodeId>,
        choice: &mut Choice,
        chunk: &Chunk<'_, '_>,
        typed: &Typed,
    ) -> Result<(), JoinRefusal>
        requires is { IsGathering self.old }
        requires chunk { IsChunk chunk.now }
        requires wide { self.old.width ≤ length typed.now.nodes }
        ensures { let all = keys_at typed.now self.old.width chunk.now
            (choices chunk.now.groups.now) in
            Gathers all self.old self.new result }
    {
        let mut found = choice.first(chunk)?;
        'choices: while found {
            match self.take_at(key, chunk, choice.positions(), typed) {
                Ok(()) => {}
                Err(refusal) => return Err(refusal),
            }
            found = choice.next(chunk);
        }
        Ok(())
    }

    // Takes the keys of one node each at all choices of a chunk, of which there are some: one key
    // for each selected position of the group in whose items the first variable lives.
    fn take_items(
        &mut self,
        chunk: &Chunk<'_, '_>,
        group: u32,
        typed: &Typed,
    ) -> Result<(), JoinRefusal>
        requires is { IsGathering self.old }
        requires one { self.old.width ≡ 1 }
        requires chunk { IsChunk chunk.now }
        requires some { choices chunk.now.groups.now ≢ [] }
        requires item { IsItem chunk.now group }
        requires wide { 1 ≤ length typed.now.nodes }
        ensures { let all = keys_at typed.now 1 chunk.now (choices chunk.now.groups.now) in
            Gathers all self.old self.new result }
    {
        let table = typed.nodes.as_slice()[0];
        let here = chunk.group(group);
        let mut next = here.next_selected(0);
        'positions: while let Some(position) = next {
            let row = here.item(position);
            match self.take(&[NodeId { table, row }]) {
                Ok(()) => {}
                Err(refusal) => return Err(refusal),
            }
            next = here.next_selected(position + 1);
        }
        Ok(())
    }

    /// Takes the keys of a chunk of an alternative, which has some choice. Where all choices have
    /// the same key the first of them is taken alone, and keys of one node by positions.
    pub(crate) fn take_chunk(
        &mut self,
        key: &mut Vec<NodeId>,
        choice: &mut Choice,
        chunk: &Chunk<'_, '_>,
        typed: &Typed,
    ) -> Result<(), JoinRefusal>
        requires is { IsGathering self.old }
        requires chunk { IsChunk chunk.now }
        requires some { choices chunk.now.groups.now ≢ [] }
        requires wide { self.old.width ≤ length typed.now.nodes }
        ensures { let all = keys_at typed.now self.old.width chunk.now
            (choices chunk.now.groups.now) in
            Gathers all self.old self.new result }
    {
        if self.width == 1 {
            if let Some(group) = item_group(chunk) {
                return self.take_items(chunk, group, typed);
            }
        }
        if !are_settled(chunk, self.width) {
            return self.take_each(key, choice, chunk, typed);
        }
        let found = choice.first(chunk)?;
        if !found {
            return Ok(());
        }
        self.take_at(key, chunk, choice.positions(), typed)
    }
}

// Reads the nodes of the first variables at one selected position of each group of a chunk.
fn read_key(
    key: &mut Vec<NodeId>,
    width: u32,
    chunk: &Chunk<'_, '_>,
    positions: &[u32],
    typed: &Typed,
) -> Result<(), Memory>
    requires chunk { IsChunk chunk.now }
    requires selected { AreSelected chunk.now.groups.now positions.now }
    requires wide { width ≤ length typed.now.nodes }
    ensures { let here = key_at typed.now width chunk.now positions.now in
        OnOk result (key.new.items ≡ here) }
{
    key.clear();
    let tables = typed.nodes.as_slice();
    'variables: for variable in 0..width {
        key.push(NodeId {
            table: tables[variable as usize],
            row: chunk.node_at(variable, positions),
        })?;
    }
    Ok(())
}
