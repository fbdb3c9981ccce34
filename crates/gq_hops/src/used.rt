//! The relationships that a walk is kept from.
ghost use Rattle.std.specs.Prelude.{◌≡◌, ◌≤◌, length, take, [], true, IfOk};
ghost use Rattle.std.specs.List.{list_any};
ghost use Rattle.gq_plan.specs.Assignments.{same_rel};
ghost use Rattle.gq_hops.specs.steps.Marks.{AreMarked, is_marked};

use gq_base::{Memory, RelId};
use std::alloc::Global;
use std::marker::Model;

/// The most relationships that a walk may be kept from.
pub(crate) const MAX_USED: usize = 384;

const MARKS: usize = 64;

/// Up to 384 relationships that a walk is kept from. A mark stands for all load numbers that leave
/// one remainder: where it is not set, no relationship with such a number is used. So most tests
/// look at one mark, however many relationships are used.
#[derive(Drop)]
pub(crate) struct Used {
    rels: Vec<RelId>,
    count: usize,
    marks: Vec<bool>,
}

impl Model for Used {
    ghost use Rattle.std.specs.Prelude.{List, take, length, ◌≤◌, ◌≡◌};
    ghost use Rattle.gq_base.specs.declared.RelId.{RelId as Rel};
    ghost use Rattle.gq_hops.specs.steps.Marks.{AreMarked};

    ghost Value = { List Rel };

    ghost view = { λ u. take u.count u.rels.items };

    ghost invariant = { λ u. (u.count ≤ 384) × (length u.rels.items ≡ 384)
        × (length u.marks.items ≡ 64) × AreMarked u.marks.items (take u.count u.rels.items) };
}

impl Used {
    /// Room for 384 relationships, none of which is used yet.
    pub(crate) fn new(alloc: Global) -> Result<Used, Memory>
        ensures { IfOk result (λ used. used ≡ []) }
    {
        let rel = RelId { table: 0, row: 0 };
        Ok(Used {
            rels: vec![in alloc; rel; MAX_USED]?,
            count: 0,
            marks: vec![in alloc; false; MARKS]?,
        })
    }

    /// From now on these are used, and no others.
    pub(crate) fn set(&mut self, used: &[RelId])
        requires { length used.now ≤ 384 }
        ensures { self.new ≡ used.now }
    {
        put_front(&mut self.rels, used);
        clear(&mut self.marks);
        mark_all(&mut self.marks, used);
        self.count = used.len();
    }

    /// Whether none is used.
    pub(crate) fn is_empty(&self) -> bool
        ensures { result ≡ true → self.now ≡ [] }
    {
        self.count == 0
    }

    /// Whether a relationship is used.
    pub(crate) fn has(&self, rel: RelId) -> bool
        ensures { result ≡ list_any (same_rel rel) self.now }
    {
        mark_of(&self.marks, rel) && stands(&self.rels[..self.count], rel)
    }
}

// Whether the mark of a relationship's load number is set.
fn mark_of(marks: &[bool], rel: RelId) -> bool
    requires { length marks.now ≡ 64 }
    ensures { result ≡ is_marked marks.now rel }
{
    marks[rel.row as usize % MARKS]
}

fn stands(rels: &[RelId], rel: RelId) -> bool
    ensures { result ≡ list_any (same_rel rel) rels.now }
{
    rels.iter().any(|own| rel == *own)
}

// Puts relationships in place of the first ones.
fn put_front(into: &mut [RelId], from: &[RelId])
    requires { length from.now ≤ length into.old }
    ensures front { take (length from.now) into.new ≡ from.now }
    ensures many { length into.new ≡ length into.old }
{
    for place in 0..from.len() {
        into[place] = from[place];
    }
}

fn clear(marks: &mut [bool])
    ensures { length marks.new ≡ length marks.old }
{
    for place in 0..marks.len() {
        marks[place] = false;
    }
}

// Sets the marks of these relationships.
fn mark_all(marks: &mut [bool], rels: &[RelId])
    requires { length marks.old ≡ 64 }
    ensures marked { AreMarked marks.new rels.now }
    ensures many { length marks.new ≡ length marks.old }
{
    for place in 0..rels.len() {
        let rel = rels[place];
        marks[rel.row as usize % MARKS] = true;
    }
}
