//! In which group of a plan each variable stands.

ghost use Rattle.std.specs.Prelude.{◌≡◌, ◌+◌, ◌^◌, ◌<◌, ◌≤◌, ◌&&◌, nat_lt, not};
ghost use Rattle.gq_plan.specs.Columns.{FitsSound, binds};
ghost use Rattle.gq_plan.specs.Plans.{plan_of, step_of};
ghost use Rattle.gq_plan.specs.Shapes as shapes;
ghost use Rattle.gq_plan.specs.Shapes.{group_of, groups_of, places_of, put, put_all};
ghost use Rattle.gq_plan.specs.Soundness.{has_number, max_variables};
ghost use Rattle.gq_plan.specs.steps.Places.{IsNamed, binds_rel, step_binds_rel};

use crate::filling::binds;
use crate::known::MAX_VARIABLES;
use crate::numbers::has_number;
use crate::plan::{Plan, Step};
use crate::typed::Typed;
use crate::variable::Variable;

/// The group of each variable of one kind; 0 where it stands in none.
#[derive(Clone, Copy)]
pub struct VariableGroups {
    groups: [usize; MAX_VARIABLES],
}

impl VariableGroups {
    fn nowhere() -> VariableGroups
        ensures { groups_of result ≡ (λ v. 0) }
    {
        VariableGroups {
            groups: [0; MAX_VARIABLES],
        }
    }

    /// The group of a variable.
    pub fn of(self, variable: u32) -> usize
        ensures { result ≡ groups_of self variable }
    {
        match self.groups.get(variable as usize) {
            Some(group) => *group,
            None => 0,
        }
    }

    fn put(&mut self, variable: u32, group: usize)
        requires { variable < max_variables }
        ensures { groups_of self.new ≡ put variable group (groups_of self.old) }
    {
        self.groups[variable as usize] = group;
    }

    // Puts the nodes that a side plan brings, its keys left out.
    fn put_nodes(&mut self, side: &Plan, keys: &[u32], group: usize)
        ensures { groups_of self.new ≡ put_all (λ v. nat_lt v max_variables
            && (binds v (plan_of side.now) && not (has_number keys.now v)))
            group (groups_of self.old) }
    {
        for at in 0..MAX_VARIABLES {
            if binds(side, at) && !has_number(keys, at) {
                self.groups[at] = group;
            }
        }
    }

    // Puts the relationships that a side plan brings.
    fn put_rels(&mut self, side: &Plan, group: usize)
        ensures { groups_of self.new ≡ put_all (λ x. nat_lt x max_variables
            && binds_rel x (plan_of side.now)) group (groups_of self.old) }
    {
        for at in 0..MAX_VARIABLES {
            if binds_rel(side, at) {
                self.groups[at] = group;
            }
        }
    }
}

/// How many groups there are, and in which one each variable stands.
#[derive(Clone, Copy)]
pub struct Places {
    pub count: usize,
    pub nodes: VariableGroups,
    pub rels: VariableGroups,
}

impl Places {
    /// The group of a variable.
    pub fn of(self, variable: Variable) -> usize
        ensures { result ≡ group_of (places_of self) variable }
    {
        match variable {
            Variable::Node(node) => self.nodes.of(node),
            Variable::Rel(rel) => self.rels.of(rel),
        }
    }

    // No groups.
    fn nowhere() -> Places
        ensures { places_of result ≡ shapes.nowhere }
    {
        Places {
            count: 0,
            nodes: VariableGroups::nowhere(),
            rels: VariableGroups::nowhere(),
        }
    }

    // Begins a group, and answers its number.
    fn begin(&mut self) -> usize
        requires { self.old.count + 1 < 2 ^ 64 }
        ensures number { result ≡ self.old.count }
        ensures next { self.new ≡ record {
          count = self.old.count + 1;
          nodes = self.old.nodes;
          rels = self.old.rels;
        } }
    {
        let group = self.count;
        self.count += 1;
        group
    }

    // Takes a step: a scan, a list extend, a list close and a join make a group, and a column step
    // adds what it binds to the group of its source.
    #[tactic(auto, using(crate::proofs::StepEquations::equations), unfolding(crate::specs::Shapes::place_step))]
    fn place(&mut self, step: &Step)
        requires room { self.old.count + 1 < 2 ^ 64 }
        requires named { IsNamed (step_of step.now) }
        ensures few { self.new.count ≤ self.old.count + 1 }
        ensures placed { places_of self.new
            ≡ shapes.place_step (step_of step.now) (places_of self.old) }
    {
        match step {
            Step::Scan { node } => {
                let group = self.begin();
                self.nodes.put(*node, group);
            }
            Step::Extend { rel, to, .. } => {
                let group = self.begin();
                self.rels.put(*rel, group);
                self.nodes.put(*to, group);
            }
            Step::ColumnExtend { rel, from, to, .. } => {
                let group = self.nodes.of(*from);
                self.rels.put(*rel, group);
                self.nodes.put(*to, group);
            }
            Step::Close { rel, .. } => {
                let group = self.begin();
                self.rels.put(*rel, group);
            }
            Step::ColumnClose { rel, from, .. } => {
                let group = self.nodes.of(*from);
                self.rels.put(*rel, group);
            }
            Step::Join { side, keys } => {
                let group = self.begin();
                self.nodes.put_nodes(side.get(), keys.as_slice(), group);
                self.rels.put_rels(side.get(), group);
            }
            Step::Keep { .. } => {}
            Step::Differ { .. } => {}
            Step::NoLoop { .. } => {}
        }
    }
}

/// In which group each variable of a plan stands that fits a sound alternative: in the one that
/// its step makes, or in the group of a column step's source.
pub fn place_variables(plan: &Plan, typed: &Typed) -> Places
    requires { FitsSound typed.now (plan_of plan.now) }
    ensures { places_of result ≡ shapes.places (plan_of plan.now) }
{
    let mut places = Places::nowhere();
    for step in plan.steps.as_slice() {
        places.place(step);
    }
    places
}

// Whether a plan binds a relationship variable.
#[cycle(binds_rel)]
fn binds_rel(plan: &Plan, rel: usize) -> bool
    ensures { result ≡ binds_rel rel (plan_of plan.now) }
{
    for step in plan.steps.as_slice() {
        if step_binds_rel(step, rel) {
            return true;
        }
    }
    false
}

#[cycle(binds_rel)]
#[tactic(auto, using(crate::proofs::StepEquations::equations), unfolding(crate::specs::steps::Places::step_binds_rel))]
fn step_binds_rel(step: &Step, rel: usize) -> bool
    ensures { result ≡ step_binds_rel rel (step_of step.now) }
{
    match step {
        Step::Extend { rel: own, .. } => *own as usize == rel,
        Step::ColumnExtend { rel: own, .. } => *own as usize == rel,
        Step::Close { rel: own, .. } => *own as usize == rel,
        Step::ColumnClose { rel: own, .. } => *own as usize == rel,
        Step::Join { side, .. } => binds_rel(side.get(), rel),
        Step::Scan { .. } => false,
        Step::Keep { .. } => false,
        Step::Differ { .. } => false,
        Step::NoLoop { .. } => false,
    }
}
