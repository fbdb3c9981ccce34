//! Places of lists of which a later group makes nothing, since it closes at a node to which no
//! relationship leads.
ghost use Rattle.std.specs.Prelude.{◌≡◌, true};
ghost use Rattle.gq_pipe.specs.steps.Told.{HasNothing};
ghost use Rattle.gq_steps.specs.Follows.{CanList};

use gq_near::NearSet;
use gq_plan::{Assignment, Follow};
use gq_steps::PlanRun;

/// What a group that follows a list to a node is told by a later one, which closes between this node
/// and an earlier one: the rows to which relationships lead from the earlier one.
#[derive(Drop)]
pub(crate) struct Closing<'g> {
    pub(crate) node: u32,
    // The earlier node, and the rows to which relationships lead from its own.
    pub(crate) other: u32,
    pub(crate) near: NearSet<'g>,
}

impl Closing<'_> {
    /// Whether the later group makes nothing of a place of the list. It takes no memory.
    pub(crate) fn ends_at(
        &mut self,
        plan_run: &PlanRun<'_>,
        follow: Follow,
        place: u32,
        row: &Assignment,
    ) -> bool
        requires { CanList plan_run.now.graph.now plan_run.now.typed.now row.now follow }
        ensures ends { let p = plan_run.now in result ≡ true → HasNothing p.graph.now p.typed.now
            row.now follow self.old.other self.old.near place }
        ensures same { self.new ≡ self.old }
    {
        let list = plan_run.list(follow, row);
        let nodes = row.nodes.as_slice();
        match list.get(place as usize) {
            None => false,
            Some(own) => match nodes.get(self.other as usize) {
                None => false,
                Some(other) => self.near.lacks(*other, *own),
            },
        }
    }
}
