//! The core of a query with trails.
ghost use Rattle.std.specs.Prelude.{◌≡◌, length, IfOk};
ghost use Rattle.std.specs.List.{list_any};
ghost use Rattle.gq_core.specs.Cored.{HasCore, IsCore};
ghost use Rattle.gq_core.specs.Cored as cored;
ghost use Rattle.gq_core.specs.steps.Cored.{IsCoreBy, IsCoreOf};
ghost use Rattle.gq_law_cuts.specs.Cuts.{core_first, core_of};
ghost use Rattle.gq_law_reaches.specs.Core.{core_nodes};

use crate::choosing::{core_first, core_nodes};
use crate::narrowing::core_pattern;
use crate::numbering::numbered_in;
use crate::trailed::Trailed;
use gq_ast::{Clause, Hop, Path};
use gq_base::{List, Memory};
use gq_scopes::{Pattern, number};
use std::alloc::Global;

/// The core of a query with trails, whose node variables are numbered anew.
#[derive(Drop)]
pub struct Core<'t> {
    /// The query's node variables in the order of first appearance, those of the core first.
    pub order: List<u32>,
    /// How many node variables the core has.
    pub nodes: u32,
    /// The patterns and the trails of the query, in that order.
    pub whole: Trailed<'t>,
    /// The patterns of the core.
    pub pattern: Pattern<'t>,
}

/// The core of MATCH clauses, or `None` where no relationship of them is a trail.
#[tactic(auto, using(crate::proofs::Plain::no_trail))]
pub fn core_of<'t>(alloc: Global, clauses: &'t [Clause]) -> Result<Option<Core<'t>>, Memory>
    ensures { IfOk result (HasCore clauses.now) }
{
    if !has_trail(clauses) {
        return Ok(None);
    }
    Ok(Some(core_in(alloc, clauses)?))
}

fn core_in<'t>(alloc: Global, clauses: &'t [Clause]) -> Result<Core<'t>, Memory>
    ensures { IfOk result (IsCore clauses.now) }
{
    let trailed = Trailed::of(alloc, clauses)?;
    core_read(alloc, &trailed)
}

// The core of patterns and trails that were read.
fn core_read<'t>(alloc: Global, trailed: &Trailed<'t>) -> Result<Core<'t>, Memory>
    ensures { IfOk result (IsCoreOf trailed.now) }
{
    let order = order_of(alloc, trailed)?;
    core_by(alloc, order, trailed)
}

fn core_by<'t>(alloc: Global, by: Order, trailed: &Trailed<'t>) -> Result<Core<'t>, Memory>
    ensures { IfOk result (IsCoreBy by.order by.nodes trailed.now) }
{
    let whole = numbered_in(alloc, by.order.as_slice(), trailed)?;
    let pattern = narrowed(alloc, by.nodes, &whole)?;
    Ok(Core {
        order: by.order,
        nodes: by.nodes,
        whole,
        pattern,
    })
}

fn narrowed<'t>(alloc: Global, count: u32, whole: &Trailed<'t>) -> Result<Pattern<'t>, Memory>
    ensures { IfOk result (λ p. p ≡ core_of count whole.now.pattern) }
{
    core_pattern(alloc, count, &whole.pattern)
}

// The order of node variables, and how many of them the core has.
#[derive(Drop)]
struct Order {
    nodes: u32,
    order: List<u32>,
}

fn order_of(alloc: Global, trailed: &Trailed<'_>) -> Result<Order, Memory>
    ensures nodes { IfOk result (λ o. o.nodes ≡ length (core_nodes trailed.now)) }
    ensures order { IfOk result (λ o. o.order ≡ core_first trailed.now) }
{
    let first = core_nodes(alloc, trailed)?;
    let nodes = number(first.len())?;
    let order = core_first(alloc, first.as_slice(), trailed.pattern.names().len())?;
    Ok(Order { nodes, order })
}

/// Whether a relationship of MATCH clauses is a trail.
pub fn has_trail(clauses: &[Clause]) -> bool
    ensures { result ≡ cored.has_trail clauses.now }
{
    clauses.iter().any(|clause| clause_has_trail(clause))
}

fn clause_has_trail(clause: &Clause) -> bool
    ensures { result ≡ list_any cored.path_has_trail clause.now.paths }
{
    clause
        .paths
        .as_slice()
        .iter()
        .any(|path| path_has_trail(path))
}

fn path_has_trail(path: &Path) -> bool
    ensures { result ≡ cored.path_has_trail path.now }
{
    path.hops.as_slice().iter().any(|hop| is_trail(hop))
}

fn is_trail(hop: &Hop) -> bool
    ensures { result ≡ cored.is_trail hop.now }
{
    hop.rel.trail.is_some()
}
