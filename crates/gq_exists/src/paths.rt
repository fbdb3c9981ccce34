//! Lists of nodes, each once, as paths through levels.
ghost use Rattle.std.specs.Prelude.{◌≡◌, [], OnOk, IfOk, length, map, replicate};
ghost use Rattle.gq_exists.specs.Made.{some_stand_on};
ghost use Rattle.gq_exists.specs.steps.Levels.{ArePaths, grown, is_path, is_path_at, links_of};
ghost use Rattle.gq_exists.specs.steps.Levels.{paths_in, with_key};
ghost use Rattle.gq_plan.specs.Keys.{has_key};

use gq_base::{Memory, NodeId};
use gq_expr::Assigned;
use indexmap::IndexSet;
use std::alloc::Global;

/// A node behind the front of a number.
#[derive(Clone, Copy, PartialEq, Eq, Hash)]
pub struct Link {
    pub(crate) front: usize,
    pub(crate) table: u32,
    pub(crate) row: u32,
}

impl Link {
    fn new(front: usize, node: NodeId) -> Link
        ensures front { result.front ≡ front }
        ensures table { result.table ≡ node.table }
        ensures row { result.row ≡ node.row }
    {
        Link {
            front,
            table: node.table,
            row: node.row,
        }
    }
}

/// Lists of so many nodes, each once, in the order of their first. A level numbers the fronts that
/// have one node more than those of the level before it, so what lists begin with is shared.
#[derive(Drop)]
pub struct Paths {
    pub(crate) any: bool,
    pub(crate) levels: Vec<IndexSet<Link>>,
}

impl Paths {
    /// No lists, of so many nodes each.
    pub(crate) fn new(alloc: Global, width: usize) -> Result<Paths, Memory>
        ensures none { IfOk result (λ paths. paths_in paths ≡ []) }
        ensures wide { IfOk result (λ paths. length paths.levels.items ≡ width) }
        ensures are { IfOk result (λ paths. ArePaths paths) }
    {
        let levels = empty_levels(alloc, width)?;
        Ok(Paths { any: false, levels })
    }

    /// How many lists there are.
    pub(crate) fn len(&self) -> usize
        ensures { result ≡ length (paths_in self.now) }
    {
        match self.levels.as_slice().last() {
            None => usize::from(self.any),
            Some(level) => level.len(),
        }
    }

    /// Whether a list is among them. It takes no memory.
    pub(crate) fn has(&self, key: &[NodeId]) -> bool
        requires { ArePaths self.now }
        ensures { result ≡ has_key key.now (paths_in self.now) }
    {
        self.any && is_found(self.levels.as_slice(), 0, key)
    }

    /// Whether the nodes that a row has at some variables are one of the lists. It takes no memory.
    pub(crate) fn has_at<R: Assigned>(&self, nodes: &[u32], row: &R) -> bool
        requires { ArePaths self.now }
        ensures { result ≡ some_stand_on nodes.now (R.assignment row.now) (paths_in self.now) }
    {
        self.any && is_found_at(self.levels.as_slice(), 0, nodes, row)
    }

    /// Adds a list, unless it is among them.
    pub(crate) fn insert(&mut self, key: &[NodeId]) -> Result<(), Memory>
        requires are { ArePaths self.old }
        requires wide { length key.now ≡ length self.old.levels.items }
        ensures keys { OnOk result (
            paths_in self.new ≡ with_key (paths_in self.old) key.now) }
        ensures wide { OnOk result (
            length self.new.levels.items ≡ length self.old.levels.items) }
        ensures are { OnOk result (ArePaths self.new) }
    {
        self.any = true;
        insert_behind(self.levels.as_mut_slice(), 0, key)?;
        Ok(())
    }
}

// So many levels without links.
fn empty_levels(alloc: Global, width: usize) -> Result<Vec<IndexSet<Link>>, Memory>
    ensures { IfOk result (λ levels. links_of levels.items ≡ replicate width []) }
{
    let mut levels = Vec::with_capacity(alloc, width)?;
    'levels: for _ in 0..width {
        levels.push(IndexSet::new(alloc))?;
    }
    Ok(levels)
}

// Whether nodes lead on from a front through all levels.
fn is_found(levels: &[IndexSet<Link>], front: usize, key: &[NodeId]) -> bool
    ensures { result ≡ is_path (links_of levels.now) front key.now }
{
    let Some((level, levels)) = levels.split_first() else {
        return key.is_empty();
    };
    let Some((node, key)) = key.split_first() else {
        return false;
    };
    match level.get_index_of(&Link::new(front, *node)) {
        None => false,
        Some(number) => is_found(levels, number, key),
    }
}

// Whether the nodes that a row has at some variables lead on from a front through all levels.
fn is_found_at<R: Assigned>(levels: &[IndexSet<Link>], front: usize, nodes: &[u32], row: &R) -> bool
    ensures { let here = map (R.assignment row.now).nodes nodes.now in
        result ≡ is_path_at (links_of levels.now) front here }
{
    let Some((level, levels)) = levels.split_first() else {
        return nodes.is_empty();
    };
    let Some((variable, nodes)) = nodes.split_first() else {
        return false;
    };
    let Some(node) = row.node(*variable) else {
        return false;
    };
    match level.get_index_of(&Link::new(front, node)) {
        None => false,
        Some(number) => is_found_at(levels, number, nodes, row),
    }
}

// Makes nodes lead on from a front through all levels.
fn insert_behind(levels: &mut [IndexSet<Link>], front: usize, key: &[NodeId]) -> Result<(), Memory>
    ensures { OnOk result (links_of levels.new ≡ grown (links_of levels.old) front key.now) }
{
    let Some((level, levels)) = levels.split_first_mut() else {
        return Ok(());
    };
    let Some((node, key)) = key.split_first() else {
        return Ok(());
    };
    let (number, _) = level.insert_full(Link::new(front, *node))?;
    insert_behind(levels, number, key)
}
