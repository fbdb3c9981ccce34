//! What a pipeline runs over, and one try of one step.
ghost use Rattle.std.specs.Prelude.{◌≡◌, ◌<◌, ◌^◌, length, slice_get, slice_index_or, None, All};
ghost use Rattle.std.specs.Option.{option_copied};
ghost use Rattle.gq_join.specs.Kept.{matches_of, place_of};
ghost use Rattle.gq_plan.specs.Conditions.{passes};
ghost use Rattle.gq_plan.specs.Meaning.{holds};
ghost use Rattle.gq_plan.specs.Rows.{as_read};
ghost use Rattle.gq_plan.specs.Soundness.{IsSound};
ghost use Rattle.gq_steps.specs.Actions.{action_of};
ghost use Rattle.gq_steps.specs.Levels.{known, step_at};
ghost use Rattle.gq_steps.specs.Matches.{AreMatches};
ghost use Rattle.gq_steps.specs.Moves.{builds_in, run_of, steps_in};
ghost use Rattle.gq_steps.specs.Moves.{IsRun, IsHeld, IsTried};
ghost use Rattle.gq_steps.specs.steps.Outcomes.{IsScanned, IsHopFound, IsExtended, IsClosed};
ghost use Rattle.gq_steps.specs.steps.Outcomes.{IsMet, IsTaken};
ghost use Rattle.gq_steps.specs.Follows.{IsSized, CanFollow};
ghost use Rattle.gq_steps.specs.steps.Outcomes.{CanJoin, IsJoined, with_nodes, with_rels};
ghost use Rattle.gq_steps.specs.steps.Outcomes.{differs_at, no_loop_at, tested};

use crate::action::Action;
use crate::follow::{Hop, hop_at};
use crate::group_steps::GroupSteps;
use gq_base::List;
use gq_expr::Assigned;
use gq_filter::RowTest;
use gq_join::Sealed;
use gq_plan::{Assignment, Follow, Step, Typed, TypedRow};
use gq_store::Graph;

/// A step of a plan, and what it does, as much of it as runs.
#[derive(Clone, Copy)]
pub struct RunStep<'g> {
    pub step: &'g Step,
    pub action: Action,
}

/// A graph, a typed alternative, and a plan for it.
#[derive(Drop)]
pub struct PlanRun<'g> {
    pub graph: &'g Graph,
    pub typed: &'g Typed,
    /// The steps of the plan as it was given, and the same in the order in which they run.
    pub plan: &'g [Step],
    pub steps: Vec<RunStep<'g>>,
    /// The build of each step that runs, if it is a join.
    pub builds: Vec<Option<&'g Sealed>>,
    /// The tests of the alternative.
    pub tests: Vec<RowTest<'g>>,
}

/// What a step makes at a place.
#[derive(Clone, Copy)]
pub enum Tried {
    /// There is no such place.
    Past,
    /// No assignment.
    Missed,
    /// An assignment.
    Made,
}

impl<'g> PlanRun<'g> {
    /// Tries the step at a depth at a place. What it binds there is written into the rows and load
    /// numbers. A join's matches are told.
    pub fn try_step(&self, depth: usize, matches: &[u32], place: u32, row: &mut Assignment) -> Tried
        requires run { IsRun (run_of self.now) }
        requires depth { depth < length (steps_in self.now) }
        requires held { IsHeld (run_of self.now) row.old (known (run_of self.now) depth) }
        requires matches { AreMatches (run_of self.now) depth row.old matches.now }
        ensures { IsTried (run_of self.now) depth place row.old row.new result }
    {
        match self.action(depth) {
            Action::Scan(node) => self.scan(node, place, row),
            Action::List(follow) => self.extend(follow, place, row),
            Action::Column(follow) => self.extend(follow, place, row),
            Action::Close(follow) => self.close(follow, place, row),
            Action::ColumnClose(follow) => self.close(follow, place, row),
            Action::Take(follow) => self.take(follow, place, row),
            Action::Join => match self.build_at(depth) {
                Some(build) => join(build, matches, place, row),
                None => unreachable!(),
            },
            Action::Test(test) => tested(place, place == 0 && self.keep(test, row)),
            Action::Differ(pair) => tested(place, place == 0 && self.differ(pair, row)),
            Action::NoLoop(rel) => tested(place, place == 0 && self.no_loop(rel, row)),
            Action::Meet(follow) => tested(place, self.meets(follow, row)),
        }
    }

    /// The matches of a group, if it joins: the rows of its build with the key that stands. All its
    /// places are places among them, so they are looked up once for all.
    pub fn matches(&self, group: GroupSteps, row: &Assignment) -> &'g [u32]
        requires run { IsRun (run_of self.now) }
        requires step { group.first < length (steps_in self.now) }
        requires action { group.action ≡ action_of (step_at (run_of self.now) group.first) }
        requires held { IsHeld (run_of self.now) row.now (known (run_of self.now) group.first) }
        ensures { AreMatches (run_of self.now) group.first row.now result.now }
    {
        match group.action {
            Action::Join => match self.build_at(group.first) {
                Some(build) => build.matches_of(row),
                None => unreachable!(),
            },
            _ => &[],
        }
    }

    /// The step at a depth.
    pub fn step(&self, depth: usize) -> &'g Step
        requires { depth < length (steps_in self.now) }
        ensures { slice_index_or (steps_in self.now) depth result.now ≡ result.now }
    {
        self.steps[depth].step
    }

    /// The build of the step at a depth, if there is one.
    pub fn build_at(&self, depth: usize) -> Option<&'g Sealed>
        requires { depth < length (builds_in self.now) }
        ensures { option_copied result ≡ slice_index_or (builds_in self.now) depth None }
    {
        self.builds[depth]
    }

    // The row at the place, for a node variable.
    fn scan(&self, node: u32, place: u32, row: &mut Assignment) -> Tried
        requires sound { IsSound self.now.graph.now.catalog self.now.typed.now }
        requires sized { IsSized self.now.typed.now row.old }
        requires node { node < length self.now.typed.now.nodes }
        ensures { IsScanned self.now.graph.now self.now.typed.now node place
            row.old row.new result }
    {
        let table = self.typed.nodes.as_slice()[node as usize];
        if place >= self.graph.node_count(table) {
            return Tried::Past;
        }
        row.nodes.set(node as usize, place);
        Tried::Made
    }

    // The relationship at the place, for a relationship variable, and the row to which it leads,
    // for a node variable.
    fn extend(&self, follow: Follow, place: u32, row: &mut Assignment) -> Tried
        requires { CanFollow self.now.graph.now self.now.typed.now row.old follow }
        ensures { IsExtended self.now.graph.now self.now.typed.now follow place
            row.old row.new result }
    {
        match self.hop(follow, place, row) {
            None => Tried::Past,
            Some(found) => {
                row.nodes.set(follow.to as usize, found.row);
                row.rels.set(follow.rel as usize, found.number);
                Tried::Made
            }
        }
    }

    // The relationship at the place, for a relationship variable, where it leads to the row that a
    // node variable has.
    fn close(&self, follow: Follow, place: u32, row: &mut Assignment) -> Tried
        requires { CanFollow self.now.graph.now self.now.typed.now row.old follow }
        ensures { IsClosed self.now.graph.now self.now.typed.now follow place
            row.old row.new result }
    {
        match self.hop(follow, place, row) {
            None => Tried::Past,
            Some(found) => {
                if found.row != row.nodes.as_slice()[follow.to as usize] {
                    return Tried::Missed;
                }
                row.rels.set(follow.rel as usize, found.number);
                Tried::Made
            }
        }
    }

    // The relationship at the place, for a relationship variable.
    fn take(&self, follow: Follow, place: u32, row: &mut Assignment) -> Tried
        requires { CanFollow self.now.graph.now self.now.typed.now row.old follow }
        ensures { IsTaken self.now.graph.now self.now.typed.now follow place
            row.old row.new result }
    {
        match self.hop(follow, place, row) {
            None => Tried::Past,
            Some(found) => {
                row.rels.set(follow.rel as usize, found.number);
                Tried::Made
            }
        }
    }

    // Whether the first relationship leads to the row that a node variable has.
    fn meets(&self, follow: Follow, row: &Assignment) -> bool
        requires { CanFollow self.now.graph.now self.now.typed.now row.now follow }
        ensures { IsMet self.now.graph.now self.now.typed.now follow row.now result }
    {
        match self.hop(follow, 0, row) {
            None => false,
            Some(found) => row.nodes.as_slice()[follow.to as usize] == found.row,
        }
    }

    // The relationship at the place among those that are followed.
    fn hop(&self, follow: Follow, place: u32, row: &Assignment) -> Option<Hop>
        requires { CanFollow self.now.graph.now self.now.typed.now row.now follow }
        ensures { IsHopFound self.now.graph.now self.now.typed.now follow place row.now result }
    {
        let table = self.typed.rels.as_slice()[follow.rel as usize].table;
        let from = row.nodes.as_slice()[follow.from as usize];
        hop_at(self.graph, table, follow.direction, from, place)
    }

    /// Whether a test of the alternative is true of rows and load numbers.
    pub fn keep(&self, test: u32, row: &Assignment) -> bool
        requires { IsRun (run_of self.now) }
        ensures { let read = as_read self.now.typed.now row.now in
            result ≡ holds (passes self.now.graph.now read)
            (slice_get self.now.typed.now.tests test) }
    {
        match self.tests.get(test as usize) {
            None => false,
            Some(test) => test.passes(row),
        }
    }

    // Whether the relationships of a pair are different.
    fn differ(&self, pair: u32, row: &Assignment) -> bool
        ensures { result ≡ differs_at self.now.typed.now row.now pair }
    {
        let typed_row = TypedRow {
            typed: self.typed,
            row,
        };
        match self.typed.pairs.get(pair as usize) {
            None => false,
            Some(pair) => match (typed_row.rel(pair.first), typed_row.rel(pair.second)) {
                (Some(first), Some(second)) => first != second,
                _ => false,
            },
        }
    }

    // Whether the ends of a relationship are different.
    fn no_loop(&self, rel: u32, row: &Assignment) -> bool
        ensures { result ≡ no_loop_at self.now.typed.now row.now rel }
    {
        let typed_row = TypedRow {
            typed: self.typed,
            row,
        };
        match self.typed.rels.get(rel as usize) {
            None => false,
            Some(rel) => match (typed_row.node(rel.source), typed_row.node(rel.target)) {
                (Some(source), Some(target)) => source != target,
                _ => true,
            },
        }
    }
}

// The match at the place, for the variables that a build keeps.
fn join(build: &Sealed, matches: &[u32], place: u32, row: &mut Assignment) -> Tried
    requires can { CanJoin build.now row.old }
    requires matches { matches.now ≡ matches_of build.now row.old }
    requires few { length matches.now < 2 ^ 32 }
    ensures { IsJoined build.now place row.old row.new result }
{
    match matches.get(place as usize) {
        None => Tried::Past,
        Some(found) => {
            take_nodes(build, *found, &mut row.nodes);
            take_rels(build, *found, &mut row.rels);
            Tried::Made
        }
    }
}

// What the kept node variables have in a row.
fn take_nodes(build: &Sealed, found: u32, nodes: &mut List<u32>)
    requires found { found < length build.now.rows }
    requires there { All (λ v. v < length nodes.old) build.now.nodes }
    requires places { All (λ v. place_of build.now.nodes v < length build.now.nodes)
        build.now.nodes }
    ensures { nodes.new ≡ with_nodes build.now found build.now.nodes nodes.old }
{
    for variable in build.nodes() {
        nodes.set(*variable as usize, build.node(found, *variable));
    }
}

// What the kept relationship variables have in a row.
fn take_rels(build: &Sealed, found: u32, rels: &mut List<u32>)
    requires found { found < length build.now.rows }
    requires there { All (λ v. v < length rels.old) build.now.rels }
    requires places { All (λ v. place_of build.now.rels v < length build.now.rels) build.now.rels }
    ensures { rels.new ≡ with_rels build.now found build.now.rels rels.old }
{
    for variable in build.rels() {
        rels.set(*variable as usize, build.rel(found, *variable));
    }
}

// A test has one place.
fn tested(place: u32, passes: bool) -> Tried
    ensures { result ≡ tested place passes }
{
    if place > 0 {
        Tried::Past
    } else if passes {
        Tried::Made
    } else {
        Tried::Missed
    }
}
