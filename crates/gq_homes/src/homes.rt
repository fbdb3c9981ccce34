//! Where the variables that a plan binds live in the groups of its chunks.
ghost use Rattle.std.specs.Prelude.{◌≡◌, ◌∷◌, ◌++◌, ◌<◌, ◌^◌, [], length, All, IfOk, OnOk};
ghost use Rattle.std.specs.Option.{option_copied};
ghost use Rattle.gq_law_groups.specs.Order.{AreCut};
ghost use Rattle.gq_plan.specs.Plans.{step_of};
ghost use Rattle.gq_group.specs.declared.home.NodeHome.TheVariants.{Column};
ghost use Rattle.gq_group.specs.declared.home.RelHome.TheVariants.{Kept};
ghost use Rattle.gq_homes.specs.Homes.{AreHomes, is_forward, kept_of, leading_of};
ghost use Rattle.gq_homes.specs.steps.Housing.{AreHoused, CanHouse, CanHouseBuild};
ghost use Rattle.gq_homes.specs.steps.Housing.{brought_by, fillings_of, housed, not_in};
ghost use Rattle.gq_homes.specs.steps.Housing.{set_numbered, with_build, with_column};
ghost use Rattle.gq_homes.specs.steps.Housing.{with_filling, with_node_home};
ghost use Rattle.gq_steps.specs.Actions.{step_by};
ghost use Rattle.gq_steps.specs.Groups.{Tiles, group_at, groups_in};
ghost use Rattle.gq_steps.specs.Moves.{run_of, IsRun};

use gq_base::{Direction, List, Memory};
use gq_group::{Homes, NodeHome, RelHome};
use gq_join::Sealed;
use gq_plan::{Step, has_number};
use gq_steps::{Action, GroupSteps, PlanRun, join_keys};
use std::alloc::Global;

/// A column of a group.
#[derive(Clone, Copy)]
pub enum Filling {
    /// It follows relationships.
    Led(Leading),
    /// It has nodes of a build.
    Kept(Keeping),
}

/// The rows to which the single relationships of a relationship variable lead from the rows of a
/// node variable.
#[derive(Clone, Copy)]
pub struct Leading {
    pub group: u32,
    pub rel: u32,
    pub from: u32,
    pub direction: Direction,
}

/// The rows that a node variable has in the rows of the build of the step at a depth.
#[derive(Clone, Copy)]
pub struct Keeping {
    pub group: u32,
    pub depth: usize,
    pub node: u32,
}

// Where a step stands: in which group, and at which depth.
#[derive(Clone, Copy)]
struct Spot {
    group: u32,
    depth: usize,
}

/// Where the variables live, and the columns, by their numbers.
#[derive(Drop)]
pub struct Housing {
    pub homes: Homes,
    pub fillings: Vec<Filling>,
}

/// The homes of the variables that the steps of groups bind; other variables live nowhere. `Memory`
/// comes also at 2^32 columns, of which there are never so many.
pub fn find_homes(
    alloc: Global,
    plan_run: &PlanRun<'_>,
    groups: &[GroupSteps],
) -> Result<Housing, Memory>
    requires run { IsRun (run_of plan_run.now) }
    requires tiles { Tiles (run_of plan_run.now) 0 groups.now }
    requires cut { AreCut (groups_in (run_of plan_run.now) groups.now) }
    requires few { length groups.now < 2 ^ 32 }
    ensures { let c = run_of plan_run.now in
        IfOk result (λ h. AreHomes c groups.now (length groups.now) (length c.steps)
        h.fillings.items h.homes) }
{
    let nodes = vec![in alloc; NodeHome::Nowhere; plan_run.typed.nodes.len()]?;
    let rels = vec![in alloc; RelHome::Nowhere; plan_run.typed.rels.len()]?;
    let mut housing = Housing {
        homes: Homes {
            nodes: List::from_vec(nodes),
            rels: List::from_vec(rels),
        },
        fillings: Vec::new(alloc),
    };
    for number in 0..groups.len() {
        house_group(plan_run, groups, number, &mut housing)?;
    }
    Ok(housing)
}

// Puts what the steps of a group bind into the group.
fn house_group(
    plan_run: &PlanRun<'_>,
    groups: &[GroupSteps],
    number: usize,
    housing: &mut Housing,
) -> Result<(), Memory>
    requires run { IsRun (run_of plan_run.now) }
    requires tiles { Tiles (run_of plan_run.now) 0 groups.now }
    requires cut { AreCut (groups_in (run_of plan_run.now) groups.now) }
    requires few { length groups.now < 2 ^ 32 }
    requires number { number < length groups.now }
    requires homes { AreHomes (run_of plan_run.now) groups.now number
        (group_at groups.now number).first housing.old.fillings.items housing.old.homes }
    ensures { OnOk result (AreHoused (run_of plan_run.now) groups.now number
        (group_at groups.now number).end housing.new.fillings.items housing.new.homes) }
{
    let group = groups[number];
    let mut step = group.first;
    while step < group.end {
        let spot = Spot {
            group: number as u32,
            depth: step,
        };
        let build = plan_run.build_at(step);
        house(
            plan_run.step(step),
            plan_run.action(step),
            build,
            spot,
            housing,
        )?;
        step += 1;
    }
    Ok(())
}

// Puts what a step of a group binds, by what it does, into the group.
fn house(
    step: &Step,
    action: Action,
    build: Option<&Sealed>,
    spot: Spot,
    housing: &mut Housing,
) -> Result<(), Memory>
    requires { CanHouse (option_copied build) housing.old.homes (step_by action (step_of step.now)) }
    ensures homes { OnOk result (housing.new.homes ≡ housed (option_copied build.entry) spot.group
        (length housing.old.fillings.items) (step_by action (step_of step.now))
        housing.old.homes) }
    ensures fillings { OnOk result (housing.new.fillings.items ≡
        with_filling (option_copied build.entry) spot.group spot.depth
        (step_by action (step_of step.now)) housing.old.fillings.items) }
{
    let group = spot.group;
    let nodes = &mut housing.homes.nodes;
    let rels = &mut housing.homes.rels;
    match action {
        Action::Scan(node) => nodes.set(node as usize, NodeHome::Item { group }),
        Action::List(follow) => {
            nodes.set(follow.to as usize, NodeHome::Item { group });
            rels.set(
                follow.rel as usize,
                listed(group, follow.from, follow.direction),
            );
        }
        Action::Close(follow) => {
            rels.set(
                follow.rel as usize,
                listed(group, follow.from, follow.direction),
            );
        }
        Action::Column(follow) => {
            let leading = leading_of(group, follow.rel, follow.from, follow.direction);
            return house_column(leading, follow.to, housing);
        }
        Action::ColumnClose(follow) => {
            rels.set(follow.rel as usize, single(follow.from, follow.direction));
        }
        Action::Take(follow) => {
            rels.set(follow.rel as usize, single(follow.from, follow.direction));
        }
        Action::Join => return house_build(build, join_keys(step), spot, housing),
        Action::Meet(_) | Action::Test(_) | Action::Differ(_) | Action::NoLoop(_) => {}
    }
    Ok(())
}

// Puts what a step over a column binds: the relationship where the one node has it that it leads from,
// and the node to which it leads into a column more.
fn house_column(leading: Leading, to: u32, housing: &mut Housing) -> Result<(), Memory>
    requires rel { leading.rel < length housing.old.homes.rels }
    requires to { to < length housing.old.homes.nodes }
    ensures homes { OnOk result (housing.new.homes ≡ with_column leading to
        (length housing.old.fillings.items) housing.old.homes) }
    ensures fillings { OnOk result (housing.new.fillings.items ≡
        housing.old.fillings.items ++ Filling.Led leading ∷ []) }
{
    let home = single(leading.from, leading.direction);
    housing.homes.rels.set(leading.rel as usize, home);
    add_column(Filling::Led(leading), leading.group, to, housing)
}

// Puts what a build keeps into the group of its join, if there is a build: node variables that are
// no keys into columns, and relationships where each row of the build has them.
fn house_build(
    build: Option<&Sealed>,
    keys: &[u32],
    spot: Spot,
    housing: &mut Housing,
) -> Result<(), Memory>
    requires { CanHouseBuild (option_copied build) housing.old.homes }
    ensures homes { OnOk result (housing.new.homes ≡ with_build (option_copied build.entry) keys.now
        spot.group (length housing.old.fillings.items) housing.old.homes) }
    ensures fillings { OnOk result (housing.new.fillings.items ≡ housing.old.fillings.items
        ++ fillings_of spot.group spot.depth (brought_by keys.now (option_copied build.entry))) }
{
    let Some(build) = build else {
        return Ok(());
    };
    house_rels(build, spot.group, &mut housing.homes.rels);
    house_nodes(build, keys, spot, housing)
}

// Puts the relationships that a build keeps where its rows have them.
fn house_rels(build: &Sealed, group: u32, homes: &mut List<RelHome>)
    requires { All (λ x. x < length homes.old) build.now.rels }
    ensures { homes.new ≡ set_numbered (Kept group) 0 build.now.rels homes.old }
{
    let rels = build.rels();
    for place in 0..build.kept_rels().width {
        let rel = rels[place as usize];
        homes.set(rel as usize, RelHome::Kept { group, place });
    }
}

// Puts each node variable that a build keeps, and that is no key, into a column more.
fn house_nodes(
    build: &Sealed,
    keys: &[u32],
    spot: Spot,
    housing: &mut Housing,
) -> Result<(), Memory>
    requires { All (λ v. v < length housing.old.homes.nodes) build.now.nodes }
    ensures homes { OnOk result (housing.new.homes ≡ record {
      nodes = set_numbered (Column spot.group) (length housing.old.fillings.items)
          (not_in keys.now build.now.nodes) housing.old.homes.nodes;
      rels = housing.old.homes.rels;
    }) }
    ensures fillings { OnOk result (housing.new.fillings.items ≡ housing.old.fillings.items
        ++ fillings_of spot.group spot.depth (not_in keys.now build.now.nodes)) }
{
    for node in build.nodes() {
        if !has_number(keys, *node as usize) {
            add_column(kept(spot, *node), spot.group, *node, housing)?;
        }
    }
    Ok(())
}

// Puts a node variable into a column more of a group.
fn add_column(filling: Filling, group: u32, node: u32, housing: &mut Housing) -> Result<(), Memory>
    requires { node < length housing.old.homes.nodes }
    ensures homes { OnOk result (housing.new.homes ≡ with_node_home node
        (Column group (length housing.old.fillings.items)) housing.old.homes) }
    ensures fillings { OnOk result (housing.new.fillings.items ≡
        housing.old.fillings.items ++ filling ∷ []) }
{
    let column = housing.fillings.len();
    if column > u32::MAX as usize {
        return Err(Memory::Limit);
    }
    housing.fillings.push(filling)?;
    let home = NodeHome::Column {
        group,
        column: column as u32,
    };
    housing.homes.nodes.set(node as usize, home);
    Ok(())
}

fn leading_of(group: u32, rel: u32, from: u32, direction: Direction) -> Leading
    ensures { result ≡ leading_of group rel from direction }
{
    Leading {
        group,
        rel,
        from,
        direction,
    }
}

fn kept(spot: Spot, node: u32) -> Filling
    ensures { result ≡ kept_of spot.group spot.depth node }
{
    Filling::Kept(Keeping {
        group: spot.group,
        depth: spot.depth,
        node,
    })
}

// A relationship of the group's list.
fn listed(group: u32, from: u32, direction: Direction) -> RelHome
    ensures { result ≡ RelHome.Listed group from (is_forward direction) }
{
    RelHome::Listed {
        group,
        from,
        forward: is_forward(direction),
    }
}

// The one relationship of a node variable.
fn single(from: u32, direction: Direction) -> RelHome
    ensures { result ≡ RelHome.Single from (is_forward direction) }
{
    RelHome::Single {
        from,
        forward: is_forward(direction),
    }
}

fn is_forward(direction: Direction) -> bool
    ensures { result ≡ is_forward direction }
{
    match direction {
        Direction::Forward => true,
        Direction::Backward => false,
    }
}
