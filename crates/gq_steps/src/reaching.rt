//! The rows to which relationships lead, where nobody asks for load numbers.
ghost use Rattle.gq_steps.specs.Follows.{CanFollow};
ghost use Rattle.gq_steps.specs.Reaching.{Reaches};

use crate::follow::neighbour;
use crate::plan_run::PlanRun;
use gq_plan::{Assignment, Follow};

impl PlanRun<'_> {
    /// Follows the relationship at a place among those that are followed, if there is one: the row to
    /// which it leads is written, and no load number.
    pub fn reach(&self, follow: Follow, place: u32, row: &mut Assignment) -> bool
        requires { CanFollow self.now.graph.now self.now.typed.now row.old follow }
        ensures { Reaches self.now.graph.now self.now.typed.now follow place row.old result row.new }
    {
        let table = self.typed.rels.as_slice()[follow.rel as usize].table;
        let from = row.nodes.as_slice()[follow.from as usize];
        match neighbour(self.graph, table, follow.direction, from, place) {
            None => false,
            Some(found) => {
                row.nodes.set(follow.to as usize, found);
                true
            }
        }
    }
}
