//! The walks of one trail, one after another.
ghost use Rattle.std.specs.Prelude.{◌≡◌, ◌∷◌, [], ◌≤◌, ◌<◌, true, false, length, filter};
ghost use Rattle.std.specs.Prelude.{IfOk, Option, Some, slice_get};
ghost use Rattle.std.specs.List.{AllByRecursion};
ghost use Rattle.gq_base.specs.declared.NodeId.{NodeId as Node};
ghost use Rattle.gq_plan.specs.Assignments.{is_node};
ghost use Rattle.gq_law_trails.specs.Bounds.{comes};
ghost use Rattle.gq_law_trails.specs.Walks.{end_of, walks};
ghost use Rattle.gq_marks.specs.Marking.{bound_of};
ghost use Rattle.gq_hops.specs.Walking.{course_of};

use crate::aim::{aim_at, marks_for};
use crate::follow::{Follow, follow_type};
use crate::search::{Run, Search};
use crate::state::{State, state_after};
use crate::used::Used;
use gq_base::{Memory, NodeId, RelId};
use gq_marks::Marks;
use gq_plan::TrailPart;
use gq_store::Graph;
use std::alloc::Global;
use std::marker::Model;

/// The most nodes from which bounds are found some relationships far. From more than these, one
/// relationship back leads to so many that the search costs more than it saves.
const MAX_SPREAD: usize = 512;

/// The walks of one trail from a node: lists of relationships of the trail's type that follow one
/// another, of which none stands twice and none is one of those that are used. It goes depth first,
/// and has room for the longest walk and for 384 used relationships from the start, so that walking
/// takes no memory.
#[derive(Drop)]
pub struct Walker<'g> {
    run: Run<'g>,
    search: Search<'g>,
    state: State,
    // The relationships of the type, followed to where they come from.
    back: Follow<'g>,
    // The node to which it was aimed last, if it was aimed at one.
    aimed: Option<NodeId>,
}

impl<'g> Model for Walker<'g> {
    ghost use Rattle.gq_hops.specs.Walking.{Walking};

    ghost Value = { Walking };

    ghost use Rattle.gq_hops.specs.steps.Inner.{walking_of, IsReady};

    ghost view = { walking_of };

    ghost invariant = { IsReady };
}

impl<'g> Walker<'g> {
    /// A walker that owes nothing, and whose walks may end at each node. So many nodes have a place
    /// for a bound, a byte each. After `Memory` there is none.
    pub fn new(
        alloc: Global,
        graph: &'g Graph,
        part: &'g TrailPart,
        places: usize,
    ) -> Result<Walker<'g>, Memory>
        requires some { 1 ≤ part.now.low }
        requires ordered { part.now.low ≤ part.now.high }
        requires few { part.now.high ≤ 16 }
        ensures course { IfOk result (λ w. w.course ≡ course_of graph.now part.now) }
        ensures bounds { IfOk result (λ w. (n : Node) → bound_of w.bounds n ≡ 0) }
        ensures owed { IfOk result (λ w. w.owed ≡ []) }
    {
        let back = follow_type(alloc, graph, &part.kind, part.way.opposite())?;
        let bounds = marks_for(alloc, &back, places)?;
        Ok(Walker {
            run: Run {
                follow: follow_type(alloc, graph, &part.kind, part.way)?,
                low: part.low as usize,
                high: part.high as usize,
                used: Used::new(alloc)?,
                bounds,
            },
            search: Search::new(alloc)?,
            state: State::Over,
            back,
            aimed: None,
        })
    }

    /// From now on a walk may end at this node alone, and none is owed. It takes no memory.
    pub fn aim(&mut self, end: NodeId)
        requires end { is_node self.old.course.graph end ≡ true }
        ensures end { bound_of self.new.bounds end ≡ 0 }
        ensures course { self.new.course ≡ self.old.course }
        ensures owed { self.new.owed ≡ [] }
    {
        self.state = State::Over;
        if self.aimed != Some(end) {
            let rounds = (self.run.high / 2) as u8;
            aim_at(&mut self.run.bounds, &self.back, &[end], rounds);
            self.aimed = Some(end);
        }
    }

    /// From now on a walk may end at each of these nodes, and maybe at others, and none is owed. It
    /// takes no memory.
    pub fn aim_at_each(&mut self, ends: &[NodeId])
        requires ends { AllByRecursion (λ n. is_node self.old.course.graph n ≡ true) ends.now }
        ensures ends { AllByRecursion (λ n. bound_of self.new.bounds n ≡ 0) ends.now }
        ensures course { self.new.course ≡ self.old.course }
        ensures owed { self.new.owed ≡ [] }
    {
        self.state = State::Over;
        self.aimed = None;
        let rounds = rounds_from(ends.len(), self.run.high);
        aim_at(&mut self.run.bounds, &self.back, ends, rounds);
    }

    /// From now on the walks from this node are owed that end where they may, without those
    /// relationships that are used. It takes no memory.
    pub fn begin(&mut self, start: NodeId, used: &[RelId])
        requires start { is_node self.old.course.graph start ≡ true }
        requires few { length used.now ≤ 384 }
        ensures owed { let c = self.old.course in
            self.new.owed ≡ filter (comes c.graph c.way (bound_of self.old.bounds) (Some start))
            (walks c.graph c.kind c.way c.low c.high (Some start) used.now) }
        ensures course { self.new.course ≡ self.old.course }
        ensures bounds { self.new.bounds ≡ self.old.bounds }
    {
        self.run.used.set(used);
        self.search.begin(&self.run, start);
        self.state = State::Fresh;
    }

    /// Goes on to the next walk, or answers false where none is owed. It takes no memory.
    pub fn advance(&mut self) -> bool
        ensures next { result ≡ true → self.old.owed ≡ self.new.rels ∷ self.new.owed }
        ensures stands { result ≡ true → self.new.standing ≡ true }
        ensures none { result ≡ false → self.old.owed ≡ [] }
        ensures over { result ≡ false → self.new.owed ≡ [] }
        ensures course { self.new.course ≡ self.old.course }
        ensures bounds { self.new.bounds ≡ self.old.bounds }
    {
        let found = match self.state {
            State::Fresh | State::Standing => self.search.next(&self.run),
            State::Over => false,
        };
        self.state = state_after(found);
        found
    }

    /// The node where the walk ends that was reached last.
    pub fn end(&self) -> NodeId
        requires { self.now.standing ≡ true }
        ensures ends { (at : Option Node) →
            end_of self.now.course.graph self.now.course.way at self.now.rels ≡ Some result }
        ensures there { is_node self.now.course.graph result ≡ true }
    {
        self.search.last()
    }

    /// How many relationships the walk has that was reached last.
    pub fn count(&self) -> usize
        requires { self.now.standing ≡ true }
        ensures count { result ≡ length self.now.rels }
        ensures few { result ≤ 16 }
    {
        self.search.count()
    }

    /// A relationship of the walk that was reached last. Which one it is, is read here.
    pub fn rel(&self, place: usize) -> RelId
        requires standing { self.now.standing ≡ true }
        requires place { place < length self.now.rels }
        ensures { slice_get self.now.rels place ≡ Some result }
    {
        self.search.rel(&self.run, place)
    }
}

// How many relationships far from so many nodes bounds are found for walks of at most so many.
fn rounds_from(ends: usize, high: usize) -> u8
    requires { high ≤ 16 }
    ensures { result ≤ 16 }
{
    if ends <= MAX_SPREAD {
        (high / 2) as u8
    } else {
        0
    }
}
