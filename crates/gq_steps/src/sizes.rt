//! How many places the whole list of a group has.
ghost use Rattle.std.specs.Prelude.{◌≡◌, ◌<◌, true, length, slice_index};
ghost use Rattle.gq_law_groups.specs.Groups.{makes_group};
ghost use Rattle.gq_plan.specs.Rows.{node_table, rel_table};
ghost use Rattle.gq_plan.specs.Soundness.{IsSound};
ghost use Rattle.gq_base.specs.Valid.{row_count};
ghost use Rattle.gq_store.specs.Neighbours.{neighbours};
ghost use Rattle.gq_steps.specs.Actions.{action_of};
ghost use Rattle.gq_steps.specs.Levels.{known, before, built_at, step_at};
ghost use Rattle.gq_steps.specs.Matches.{AreMatches};
ghost use Rattle.gq_steps.specs.Moves.{run_of, steps_in, IsRun, IsHeld};
ghost use Rattle.gq_steps.specs.Follows.{CanFollow};
ghost use Rattle.gq_steps.specs.Tries.{tries};

use crate::action::Action;
use crate::follow::degree;
use crate::group_steps::GroupSteps;
use crate::plan_run::PlanRun;
use gq_plan::{Assignment, Follow};

impl PlanRun<'_> {
    /// How many places the first step of a group has, which makes it. A join's matches are told.
    pub fn count(&self, group: GroupSteps, matches: &[u32], row: &Assignment) -> u32
        requires run { IsRun (run_of self.now) }
        requires step { group.first < length (steps_in self.now) }
        requires action { group.action ≡ action_of (step_at (run_of self.now) group.first) }
        requires makes { makes_group (step_at (run_of self.now) group.first) ≡ true }
        requires held { IsHeld (run_of self.now) row.now (known (run_of self.now) group.first) }
        requires matches { AreMatches (run_of self.now) group.first row.now matches.now }
        ensures { let c = run_of self.now in result ≡ length (tries c.graph c.typed
            (built_at c group.first) (step_at c group.first) (before c row.now group.first)) }
    {
        match group.action {
            Action::Scan(node) => self.row_count(node),
            Action::List(follow) => self.met(follow, row),
            Action::Close(follow) => self.met(follow, row),
            Action::Join => matches.len() as u32,
            _ => unreachable!(),
        }
    }

    /// How many rows the table of a node variable has.
    pub fn row_count(&self, node: u32) -> u32
        requires sound { IsSound self.now.graph.now.catalog self.now.typed.now }
        requires node { node < length self.now.typed.now.nodes }
        ensures { result ≡ row_count self.now.graph.now.nodes (node_table self.now.typed.now node) }
    {
        self.graph
            .node_count(self.typed.nodes.as_slice()[node as usize])
    }

    // How many relationships are followed.
    fn met(&self, follow: Follow, row: &Assignment) -> u32
        requires { CanFollow self.now.graph.now self.now.typed.now row.now follow }
        ensures { result ≡ length (neighbours self.now.graph.now (rel_table self.now.typed.now
            follow.rel) follow.direction (slice_index row.now.nodes follow.from)) }
    {
        let table = self.typed.rels.as_slice()[follow.rel as usize].table;
        let from = row.nodes.as_slice()[follow.from as usize];
        degree(self.graph, table, follow.direction, from)
    }
}
