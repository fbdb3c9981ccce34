//! The search for walks: a walk that is under way, and what is to be tried next at each of its nodes.
ghost use Rattle.std.specs.Prelude.{◌≡◌, ◌+◌, ◌<◌, ◌≤◌, ◌&&◌, ◌||◌, nat_eq, nat_le, nat_lt, true};
ghost use Rattle.std.specs.Prelude.{length, slice_get, take, IfOk, Some};
ghost use Rattle.std.specs.List.{list_any};
ghost use Rattle.gq_plan.specs.Assignments.{is_node, same_rel};
ghost use Rattle.gq_law_trails.specs.Bounds.{AreBounds};
ghost use Rattle.gq_marks.specs.Marking.{bound_of};
ghost use Rattle.gq_hops.specs.declared.follow.Hop.{Hop as Step};
ghost use Rattle.gq_hops.specs.steps.Hops.{AreTables, IsHop, IsSite, same_site};
ghost use Rattle.gq_hops.specs.steps.Searches.{run_of, IsBegun, IsRoomy, IsOpen, IsTried};
ghost use Rattle.gq_hops.specs.steps.Searches.{IsLonger, IsPassed, IsPassedTo, IsSearched, rels_in};

use crate::follow::{Follow, Frame, Met, hop_of, level_at, met_here, next_met};
use crate::hop::Near;
use crate::reach::is_used;
use crate::used::Used;
use gq_base::{Memory, NodeId, RelId};
use gq_marks::Marks;
use std::alloc::Global;

/// The most relationships of a walk.
pub(crate) const MAX_LENGTH: usize = 16;

/// Which walks are sought: along which relationships, of how many, without which, and where they may
/// end.
#[derive(Drop)]
pub(crate) struct Run<'g> {
    pub(crate) follow: Follow<'g>,
    pub(crate) low: usize,
    pub(crate) high: usize,
    pub(crate) used: Used,
    pub(crate) bounds: Marks,
}

/// A walk that is under way.
#[derive(Drop)]
pub(crate) struct Search<'g> {
    // The node at each depth of the walk, and what is to be tried there next.
    levels: Vec<Frame<'g>>,
    // Where the relationships of the walk stand. Which ones they are, their load numbers, is read
    // where it is asked.
    mets: Vec<Met>,
    depth: usize,
    // The node where the walk ends.
    last: NodeId,
}

impl<'g> Search<'g> {
    /// Room for the longest walk.
    pub(crate) fn new(alloc: Global) -> Result<Search<'g>, Memory>
        ensures { IfOk result IsRoomy }
    {
        let node = NodeId { table: 0, row: 0 };
        let met = Met {
            table: 0,
            near: 0,
            place: 0,
            node,
        };
        let level = Frame {
            at: node,
            table: 0,
            near: Near::One(None),
            place: 0,
        };
        Ok(Search {
            levels: vec![in alloc; level; MAX_LENGTH]?,
            mets: vec![in alloc; met; MAX_LENGTH]?,
            depth: 0,
            last: node,
        })
    }

    /// Goes to a node from which nothing is walked yet.
    pub(crate) fn begin(&mut self, run: &Run<'g>, start: NodeId)
        requires tables { AreTables run.now.follow }
        requires room { IsRoomy self.old }
        requires node { is_node run.now.follow.graph.now start ≡ true }
        ensures { IsBegun run.now start self.old self.new }
    {
        self.depth = 0;
        self.levels[0] = level_at(&run.follow, start, 0);
    }

    /// Goes on to the next walk, and answers whether there is one.
    pub(crate) fn next(&mut self, run: &Run<'g>) -> bool
        requires tables { AreTables run.now.follow }
        requires open { IsOpen (run_of run.now) self.old }
        requires bounds { let f = run.now.follow in
            AreBounds f.graph.now f.kind.now f.way (bound_of run.now.bounds) }
        ensures { IsSearched (run_of run.now) self.old result self.new }
    {
        loop {
            match self.try_next(run) {
                Some(met) => {
                    if self.leads_on(run, met.node) {
                        if !self.is_used(run, met) {
                            self.take(run, met);
                            if self.may_stop(run) {
                                return true;
                            }
                        }
                    } else {
                        self.pass_over(run);
                    }
                }
                None => {
                    if self.depth == 0 {
                        return false;
                    }
                    self.depth -= 1;
                }
            }
        }
    }

    /// The node where the walk ends.
    pub(crate) fn last(&self) -> NodeId
        ensures { result ≡ self.now.last }
    {
        self.last
    }

    /// How many relationships the walk has.
    pub(crate) fn count(&self) -> usize
        ensures { result ≡ self.now.depth }
    {
        self.depth
    }

    /// A relationship of the walk.
    pub(crate) fn rel(&self, run: &Run<'g>, place: usize) -> RelId
        requires tables { AreTables run.now.follow }
        requires open { IsOpen (run_of run.now) self.now }
        requires place { place < self.now.depth }
        ensures { slice_get (take self.now.depth (rels_in (run_of run.now) self.now)) place
            ≡ Some result }
    {
        hop_of(&run.follow, self.mets[place]).rel
    }

    // The next relationship at the end of the walk, if there is one and the walk may be longer.
    fn try_next(&mut self, run: &Run<'g>) -> Option<Met>
        requires tables { AreTables run.now.follow }
        requires open { IsOpen (run_of run.now) self.old }
        ensures { IsTried run.now self.old self.new result }
    {
        if run.high <= self.depth {
            return None;
        }
        // A table has mostly one more, and then the level need not be copied.
        if let Some(met) = met_here(&run.follow, &self.levels[self.depth]) {
            self.levels[self.depth].place += 1;
            return Some(met);
        }
        let mut level = self.levels[self.depth];
        let found = next_met(&run.follow, &mut level);
        if found.is_some() {
            self.levels[self.depth] = level;
        }
        found
    }

    // Passes over relationships at the end of the walk by which it comes to no node where it may end.
    fn pass_over(&mut self, run: &Run<'g>)
        requires tables { AreTables run.now.follow }
        requires open { IsOpen (run_of run.now) self.old }
        requires low { self.old.depth < run.now.high }
        requires bounds { let f = run.now.follow in
            AreBounds f.graph.now f.kind.now f.way (bound_of run.now.bounds) }
        ensures { IsPassed run.now self.old self.new }
    {
        let level = self.passed(run);
        self.levels[self.depth] = level;
    }

    // The level at the end of the walk from the first relationship on that leads on there, or from
    // where its table has no more.
    fn passed(&self, run: &Run<'g>) -> Frame<'g>
        requires tables { AreTables run.now.follow }
        requires open { IsOpen (run_of run.now) self.now }
        requires low { self.now.depth < run.now.high }
        requires bounds { let f = run.now.follow in
            AreBounds f.graph.now f.kind.now f.way (bound_of run.now.bounds) }
        ensures { IsPassedTo run.now self.now result }
    {
        let mut level = self.levels[self.depth];
        'hops: while let Some(met) = met_here(&run.follow, &level) {
            if self.leads_on(run, met.node) {
                return level;
            }
            level.place += 1;
        }
        level
    }

    // The walk is longer by a relationship.
    fn take(&mut self, run: &Run<'g>, met: Met)
        requires room { IsRoomy self.old }
        requires low { self.old.depth < run.now.high }
        requires high { run.now.high ≤ 16 }
        requires tables { AreTables run.now.follow }
        requires node { is_node run.now.follow.graph.now met.node ≡ true }
        ensures { IsLonger run.now self.old self.new met }
    {
        self.mets[self.depth] = met;
        self.depth += 1;
        self.last = met.node;
        if self.depth < run.high {
            self.levels[self.depth] = level_at(&run.follow, met.node, 0);
        }
    }

    // Whether a walk that goes on to a node can come to one where it may end.
    fn leads_on(&self, run: &Run<'g>, node: NodeId) -> bool
        requires { self.now.depth < 16 }
        ensures { result ≡ nat_lt (bound_of run.now.bounds node + self.now.depth) run.now.high }
    {
        run.bounds.bound(node) as usize + self.depth < run.high
    }

    // Whether the walk is long enough, and ends where it may.
    fn may_stop(&self, run: &Run<'g>) -> bool
        ensures { result ≡ (nat_le run.now.low self.now.depth
            && nat_eq (bound_of run.now.bounds self.now.last) 0) }
    {
        run.low <= self.depth && run.bounds.bound(self.last) == 0
    }

    // Whether a relationship that is met is used, or stands in the walk.
    fn is_used(&self, run: &Run<'g>, met: Met) -> bool
        requires room { self.now.depth ≤ length self.now.mets.items }
        requires site { IsSite run.now.follow met }
        ensures { (hop : Step) → IsHop run.now.follow met hop → result
            ≡ (list_any (same_site met) (take self.now.depth self.now.mets.items)
            || list_any (same_rel hop.rel) run.now.used) }
    {
        self.stands(met) || is_used(&run.follow, &run.used, met)
    }

    // Whether a relationship stands in the walk. All are met on one way: where they stand tells them
    // apart.
    fn stands(&self, met: Met) -> bool
        requires { self.now.depth ≤ length self.now.mets.items }
        ensures { result ≡ list_any (same_site met) (take self.now.depth self.now.mets.items) }
    {
        self.mets[..self.depth]
            .iter()
            .any(|own| same_site(met, *own))
    }
}

fn same_site(met: Met, own: Met) -> bool
    ensures { result ≡ same_site met own }
{
    met.place == own.place && met.near == own.near && met.table == own.table
}
