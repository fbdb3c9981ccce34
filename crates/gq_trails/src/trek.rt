//! The search for ways to walk all trails of a query: the walkers of the trails, and the row that
//! their walks make.
ghost use Rattle.std.specs.Prelude.{◌≡◌, ◌+◌, ◌*◌, ◌<◌, ◌≤◌, ◌++◌, ℕ, true, All, IfOk, length};
ghost use Rattle.std.specs.Prelude.{None, Some, [], IfSome, filter, nat_eq, if◌then◌else◌};
ghost use Rattle.gq_base.specs.declared.NodeId.{NodeId as Node};
ghost use Rattle.gq_ends.specs.Ends.{AreEnds};
ghost use Rattle.gq_law_trails.specs.Bounds.{comes};
ghost use Rattle.gq_law_trails.specs.Walks.{walks};
ghost use Rattle.gq_marks.specs.Marking.{bound_of};
ghost use Rattle.gq_plan.specs.Assignments.{is_node};
ghost use Rattle.gq_law_trails.specs.Trails.{after_trails, taken_in};
ghost use Rattle.gq_trails.specs.Trekking.{HasLength, patterns_in};
ghost use Rattle.gq_trails.specs.steps.Ends.{AreEndsOf, may_end};
ghost use Rattle.gq_trails.specs.steps.Journeys.{AreWalkers, GoesToFits, HaveCourses, IsAt, IsFound};
ghost use Rattle.gq_trails.specs.steps.Journeys.{IsMade, IsWalkerFor};
ghost use Rattle.gq_trails.specs.steps.Journeys.{IsStarted, IsTried, journey_of, owed_at, owed_behind};
ghost use Rattle.gq_trails.specs.steps.Journeys.{part_at, patterns_of, walk_at, walked_at};
ghost use Rattle.gq_trails.specs.steps.Standing.{IsOver};
ghost use Rattle.gq_outer.specs.Rows.{item_at};

use crate::ends::arrives;
use crate::taken::Taken;
use gq_base::{Memory, NodeId, RelId};
use gq_ends::{TrailEnd, end_nodes};
use gq_expr::Assigned;
use gq_hops::Walker;
use gq_outer::WideRow;
use gq_plan::{TrailPart, TypedRel};
use gq_store::Graph;
use std::alloc::Global;

/// How many nodes have places for bounds, in all trails of a query together: a byte each.
const MAX_PLACES: usize = 134_217_728;

/// What is walked: the trails of a query over a graph, beside the relationships of an alternative.
#[derive(Drop)]
pub(crate) struct Route<'g> {
    pub(crate) graph: &'g Graph,
    pub(crate) parts: &'g [TrailPart],
    pub(crate) rels: &'g [TypedRel],
}

/// Where the search is.
#[derive(Drop)]
pub(crate) struct Trek<'g> {
    // A walker for each trail.
    pub(crate) walkers: Vec<Walker<'g>>,
    // What is bound, by the base row and by the trails that have walks.
    pub(crate) row: WideRow,
    // What the trail whose turn has come may not take.
    pub(crate) taken: Taken,
}

impl<'g> Trek<'g> {
    /// Walkers for trails, and an empty row of so many variables.
    pub(crate) fn new(
        alloc: Global,
        graph: &'g Graph,
        parts: &'g [TrailPart],
        nodes: u32,
        rels: u32,
    ) -> Result<Trek<'g>, Memory>
        requires { All HasLength parts.now }
        ensures { IfOk result (IsMade graph.now parts.now nodes rels) }
    {
        Ok(Trek {
            walkers: walkers_for(alloc, graph, parts)?,
            row: WideRow::new(alloc, nodes, rels)?,
            taken: Taken::new(alloc)?,
        })
    }

    /// It is the turn of the trail at a depth.
    pub(crate) fn start(&mut self, route: &Route<'g>, depth: usize)
        requires low { depth < length route.now.parts.now }
        requires few { length route.now.parts.now + length route.now.rels.now ≤ 24 }
        requires at { let j = journey_of route.now self.old.row in
            IsAt j self.old.walkers.items self.old.row depth }
        requires walkers { let j = journey_of route.now self.old.row in
            AreWalkers j self.old.walkers.items self.old.row }
        ensures { IsStarted (journey_of route.now self.old.row) depth self.old self.new }
    {
        let part = &route.parts[depth];
        self.taken.clear();
        let walkers = self.walkers.as_slice();
        take_walks(&mut self.taken, walkers, route.parts, depth, part.clause);
        take_patterns(&mut self.taken, route.rels, &self.row, part.clause);
        match self.row.node(part.from) {
            None => (),
            Some(start) => {
                route.graph.stands_valid();
                let taken = self.taken.as_slice();
                begin_at(&mut self.walkers[depth], part, &self.row, start, taken);
            }
        }
    }

    /// Goes on from the trail at a depth until each trail has a walk, and answers whether they
    /// have.
    pub(crate) fn next(
        &mut self,
        route: &Route<'g>,
        ends: &mut Vec<TrailEnd<'g>>,
        from: usize,
    ) -> bool
        requires low { from < length route.now.parts.now }
        requires ends { AreEndsOf route.now.graph.now route.now.parts.now ends.old.items }
        requires few { length route.now.parts.now + length route.now.rels.now ≤ 24 }
        requires at { let j = journey_of route.now self.old.row in
            IsAt j self.old.walkers.items self.old.row from }
        requires walkers { let j = journey_of route.now self.old.row in
            AreWalkers j self.old.walkers.items self.old.row }
        ensures found { let j = journey_of route.now self.old.row in
            let owed = owed_at j self.old.walkers.items from in
            IsFound j owed result self.new.walkers.items self.new.row }
        ensures same { ends.new.items ≡ ends.old.items }
    {
        let mut depth = from;
        'depths: loop {
            if self.walkers[depth].advance() {
                if self.goes_on(route, ends, depth) {
                    depth += 1;
                    if depth == route.parts.len() {
                        return true;
                    }
                    self.start(route, depth);
                }
            } else {
                if depth == 0 {
                    return false;
                }
                depth -= 1;
            }
        }
    }

    /// Goes to the first continuation of the row, and answers whether there is one.
    pub(crate) fn first(&mut self, route: &Route<'g>, ends: &mut Vec<TrailEnd<'g>>) -> bool
        requires ends { AreEndsOf route.now.graph.now route.now.parts.now ends.old.items }
        requires few { length route.now.parts.now + length route.now.rels.now ≤ 24 }
        requires at { let j = journey_of route.now self.old.row in
            IsAt j self.old.walkers.items self.old.row 0 }
        requires walkers { let j = journey_of route.now self.old.row in
            AreWalkers j self.old.walkers.items self.old.row }
        ensures over { let j = journey_of route.now self.old.row in
            let all = after_trails j.graph (patterns_of j) j.parts j.base [] in
            IsOver route.now all self.old result self.new }
        ensures same { ends.new.items ≡ ends.old.items }
    {
        if route.parts.is_empty() {
            return true;
        }
        self.start(route, 0);
        self.next(route, ends, 0)
    }

    /// Goes on to the next continuation, where each trail has a walk, and answers whether there is
    /// one.
    pub(crate) fn go_on(&mut self, route: &Route<'g>, ends: &mut Vec<TrailEnd<'g>>) -> bool
        requires ends { AreEndsOf route.now.graph.now route.now.parts.now ends.old.items }
        requires few { length route.now.parts.now + length route.now.rels.now ≤ 24 }
        requires at { let j = journey_of route.now self.old.row in
            IsAt j self.old.walkers.items self.old.row (length route.now.parts.now) }
        requires walkers { let j = journey_of route.now self.old.row in
            AreWalkers j self.old.walkers.items self.old.row }
        ensures over { let j = journey_of route.now self.old.row in
            let rest = owed_behind j self.old.walkers.items (length route.now.parts.now) in
            IsOver route.now rest self.old result self.new }
        ensures same { ends.new.items ≡ ends.old.items }
    {
        let count = route.parts.len();
        if count == 0 {
            return false;
        }
        self.next(route, ends, count - 1)
    }

    // Whether the walk of the trail at a depth ends where it may; the row has the node where the
    // trail binds it.
    #[inline(always)]
    fn goes_on(&mut self, route: &Route<'g>, ends: &mut Vec<TrailEnd<'g>>, depth: usize) -> bool
        requires low { depth < length route.now.parts.now }
        requires ends { AreEndsOf route.now.graph.now route.now.parts.now ends.old.items }
        requires many { depth < length self.old.walkers.items }
        requires standing { (walk_at self.old.walkers.items depth).standing ≡ true }
        requires graph { (walk_at self.old.walkers.items depth).course.graph ≡ route.now.graph.now }
        requires way { (walk_at self.old.walkers.items depth).course.way
            ≡ (part_at route.now.parts.now depth).way }
        requires within { (part_at route.now.parts.now depth).to < length self.old.row.nodes }
        ensures tried { IsTried route.now depth self.old self.new result }
        ensures same { ends.new.items ≡ ends.old.items }
    {
        let node = self.walkers[depth].end();
        arrives(&route.parts[depth], &mut ends[depth], node, &mut self.row)
    }
}

// A walker begins at a node, and goes where a walk may end as its trail asks of a row.
fn begin_at(
    walker: &mut Walker<'_>,
    part: &TrailPart,
    row: &WideRow,
    start: NodeId,
    taken: &[RelId],
)
    requires start { is_node walker.old.course.graph start ≡ true }
    requires few { length taken.now ≤ 384 }
    requires end { part.now.both ≡ true → (n : Node) → item_at row.now.nodes part.now.to ≡ Some n →
        is_node walker.old.course.graph n ≡ true }
    requires fits { GoesToFits walker.old.course.graph part.now walker.old.bounds }
    ensures owed { let c = walker.old.course in
        walker.new.owed ≡ filter (comes c.graph c.way (bound_of walker.new.bounds) (Some start))
        (walks c.graph c.kind c.way c.low c.high (Some start) taken.now) }
    ensures bounds { let g = walker.old.course.graph in (n : Node) → is_node g n ≡ true →
        may_end g part.now row.now n ≡ true → bound_of walker.new.bounds n ≡ 0 }
    ensures fits { GoesToFits walker.old.course.graph part.now walker.new.bounds }
    ensures course { walker.new.course ≡ walker.old.course }
{
    aim_for(walker, part, row);
    walker.begin(start, taken);
}

// Where the other end of a walker's trail is bound in a row, the walker goes there.
fn aim_for(walker: &mut Walker<'_>, part: &TrailPart, row: &WideRow)
    requires end { part.now.both ≡ true → (n : Node) → item_at row.now.nodes part.now.to ≡ Some n →
        is_node walker.old.course.graph n ≡ true }
    requires fits { GoesToFits walker.old.course.graph part.now walker.old.bounds }
    ensures bounds { let g = walker.old.course.graph in (n : Node) → is_node g n ≡ true →
        may_end g part.now row.now n ≡ true → bound_of walker.new.bounds n ≡ 0 }
    ensures fits { GoesToFits walker.old.course.graph part.now walker.new.bounds }
    ensures course { walker.new.course ≡ walker.old.course }
{
    if !part.both {
        return;
    }
    match row.node(part.to) {
        None => (),
        Some(end) => walker.aim(end),
    }
}

// A walker for each trail.
fn walkers_for<'g>(
    alloc: Global,
    graph: &'g Graph,
    parts: &'g [TrailPart],
) -> Result<Vec<Walker<'g>>, Memory>
    requires { All HasLength parts.now }
    ensures count { IfOk result (λ ws. length ws.items ≡ length parts.now) }
    ensures courses { IfOk result (λ ws. HaveCourses graph.now parts.now ws.items (length parts.now)) }
{
    let places = match parts.len() {
        0 => 0,
        count => MAX_PLACES / count,
    };
    let mut walkers = Vec::with_capacity(alloc, parts.len())?;
    'parts: for part in parts {
        walkers.push(walker_for(alloc, graph, part, places)?)?;
    }
    Ok(walkers)
}

// A walker for a trail, with so many places for bounds where it has an aim: it goes where the nodes
// are that the trail asks for, if they are found.
fn walker_for<'g>(
    alloc: Global,
    graph: &'g Graph,
    part: &'g TrailPart,
    places: usize,
) -> Result<Walker<'g>, Memory>
    requires { HasLength part.now }
    ensures { IfOk result (IsWalkerFor graph.now part.now) }
{
    match ends_for(alloc, graph, part) {
        None => {
            let places = if part.both { places } else { 0 };
            let walker = Walker::new(alloc, graph, part, places)?;
            Ok(walker)
        }
        Some(ends) => {
            let mut walker = Walker::new(alloc, graph, part, places)?;
            walker.aim_at_each(ends.as_slice());
            Ok(walker)
        }
    }
}

// The nodes at which a walk of a trail may end, where the trail binds its other end and asks
// something of it, if they are found. They only save time, so that without memory there are none.
fn ends_for(alloc: Global, graph: &Graph, part: &TrailPart) -> Option<Vec<NodeId>>
    ensures { IfSome result (λ ends. AreEnds graph.now part.now ends.items) }
{
    if part.both || (part.labels.is_empty() && part.tests.is_empty()) {
        return None;
    }
    match end_nodes(alloc, graph, part) {
        Ok(found) => found,
        Err(_) => None,
    }
}

/// Adds what those of the first trails have walked that are of a clause, the latest first.
pub(crate) fn take_walks(
    taken: &mut Taken,
    walkers: &[Walker<'_>],
    parts: &[TrailPart],
    depth: usize,
    clause: u32,
)
    requires low { depth ≤ length parts.now }
    requires many { depth ≤ length walkers.now }
    requires standing { (i : ℕ) → i < depth → (walk_at walkers.now i).standing ≡ true }
    requires room { length taken.old + 16 * depth ≤ 384 }
    ensures taken { taken.new
        ≡ taken.old ++ taken_in clause (walked_at parts.now walkers.now depth) }
    ensures few { length taken.new ≤ length taken.old + 16 * depth }
{
    'trails: for back in 0..depth {
        let at = depth - 1 - back;
        if parts[at].clause == clause {
            take_walk(taken, &walkers[at]);
        }
    }
}

// Adds the relationships of a walk.
fn take_walk(taken: &mut Taken, walker: &Walker<'_>)
    requires standing { walker.now.standing ≡ true }
    requires room { length taken.old + 16 ≤ 384 }
    ensures taken { taken.new ≡ taken.old ++ walker.now.rels }
    ensures few { length walker.now.rels ≤ 16 }
{
    'rels: for place in 0..walker.count() {
        taken.push(walker.rel(place));
    }
}

/// Adds what the relationship patterns of a clause have.
pub(crate) fn take_patterns(taken: &mut Taken, patterns: &[TypedRel], row: &WideRow, clause: u32)
    requires { length taken.old + length patterns.now ≤ 384 }
    ensures taken { taken.new ≡ taken.old ++ patterns_in patterns.now row.now.rels clause }
    ensures few { length taken.new ≤ length taken.old + length patterns.now }
{
    'patterns: for at in 0..patterns.len() {
        if let Some(rel) = pattern_rel(&patterns[at], at as u32, row, clause) {
            taken.push(rel);
        }
    }
}

// What a relationship pattern has, if it is of a clause.
fn pattern_rel(pattern: &TypedRel, at: u32, row: &WideRow, clause: u32) -> Option<RelId>
    ensures { result
        ≡ (if nat_eq pattern.now.clause clause then item_at row.now.rels at else None) }
{
    if pattern.clause == clause {
        row.rel(at)
    } else {
        None
    }
}
