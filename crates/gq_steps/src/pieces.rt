//! Pieces of the whole lists of groups.
ghost use Rattle.std.specs.Prelude.{◌≡◌, ◌+◌, ◌-◌, ◌<◌, ◌≤◌, min, true, None, length, slice_index};
ghost use Rattle.std.specs.Prelude.{slice_index_or, All, ◌^◌};
ghost use Rattle.gq_base.specs.Directions.{opposite};
ghost use Rattle.gq_law_groups.specs.Groups.{makes_group};
ghost use Rattle.gq_steps.specs.Pieces.{IsPieceOf, KeepsOf, list_of, part};
ghost use Rattle.gq_steps.specs.Actions.{action_of};
ghost use Rattle.gq_steps.specs.Levels.{known, step_at};
ghost use Rattle.gq_steps.specs.Matches.{AreMatches};
ghost use Rattle.gq_steps.specs.Moves.{builds_in, run_of, steps_in, IsRun, IsHeld};
ghost use Rattle.gq_steps.specs.Follows.{CanList};
ghost use Rattle.gq_plan.specs.Rows.{rel_table};
ghost use Rattle.gq_store.specs.Neighbours.{near_rows, neighbours};

use crate::action::Action;
use crate::group_steps::GroupSteps;
use crate::plan_run::PlanRun;
use gq_bits::VECTOR;
use gq_group::{KeptRels, Piece};
use gq_plan::{Assignment, Follow};

impl<'g> PlanRun<'g> {
    /// The piece that begins at a place of the list of a group's first step, which makes the group. A
    /// join's matches are told.
    pub fn piece(
        &self,
        group: GroupSteps,
        matches: &'g [u32],
        first: u32,
        row: &Assignment,
    ) -> Piece<'g>
        requires run { IsRun (run_of self.now) }
        requires step { group.first < length (steps_in self.now) }
        requires action { group.action ≡ action_of (step_at (run_of self.now) group.first) }
        requires makes { makes_group (step_at (run_of self.now) group.first) ≡ true }
        requires held { IsHeld (run_of self.now) row.now (known (run_of self.now) group.first) }
        requires matches { AreMatches (run_of self.now) group.first row.now matches.now }
        requires first { let c = run_of self.now in
            first ≤ length (list_of c group.first row.now (step_at c group.first)) }
        ensures { IsPieceOf (run_of self.now) group.first row.now first result }
    {
        match group.action {
            Action::Scan(node) => Piece::Span {
                low: first,
                high: end_of(first, self.row_count(node)),
            },
            Action::List(follow) => Piece::List {
                ids: part(self.list(follow, row), first),
                first,
            },
            Action::Close(follow) => Piece::List {
                ids: part(self.list(follow, row), first),
                first,
            },
            Action::Join => Piece::Matches {
                rows: part(matches, first),
                first,
            },
            _ => unreachable!(),
        }
    }

    /// What the build of the step at a depth keeps of relationships, if the step has one.
    pub fn kept(&self, depth: usize) -> KeptRels<'g>
        requires run { IsRun (run_of self.now) }
        requires depth { depth < length (steps_in self.now) }
        ensures { KeepsOf (slice_index_or (builds_in self.now) depth None) result }
    {
        match self.build_at(depth) {
            Some(build) => build.kept_rels(),
            None => KeptRels::none(),
        }
    }

    /// The rows to which the relationships lead that are followed.
    pub fn list(&self, follow: Follow, row: &Assignment) -> &'g [u32]
        requires { CanList self.now.graph.now self.now.typed.now row.now follow }
        ensures value { result.now ≡ neighbours self.now.graph.now
            (rel_table self.now.typed.now follow.rel) follow.direction
            (slice_index row.now.nodes follow.from) }
        ensures ends { let table = rel_table self.now.typed.now follow.rel in All
            (λ other. other < near_rows self.now.graph.now table (opposite follow.direction))
            result.now }
        ensures few { length result.now < 2 ^ 32 }
    {
        let table = self.typed.rels.as_slice()[follow.rel as usize].table;
        let from = row.nodes.as_slice()[follow.from as usize];
        self.graph.list(table, follow.direction, from)
    }
}

// Where the piece ends that begins at a place of so many.
fn end_of(first: u32, count: u32) -> u32
    requires { first ≤ count }
    ensures { result ≡ first + min VECTOR (count - first) }
{
    let rest = count - first;
    if rest < VECTOR { count } else { first + VECTOR }
}

// The piece of a list that begins at a place.
fn part(list: &[u32], first: u32) -> &[u32]
    requires { first ≤ length list.now }
    ensures { result.now ≡ part list.now first }
{
    let rest = &list[first as usize..];
    if rest.len() < VECTOR as usize {
        rest
    } else {
        &rest[..VECTOR as usize]
    }
}
