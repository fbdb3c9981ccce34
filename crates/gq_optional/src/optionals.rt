//! The optional clauses of a query: what plans of their alternatives make.
ghost use Rattle.std.specs.Prelude.{◌≡◌, ◌++◌, ◌≤◌, [], map, All, IfOk, IfErr, OnOk};
ghost use Rattle.std.specs.List.{AllZip, range_with_len};
ghost use Rattle.gq_optional.specs.Held.{rows_owed};
ghost use Rattle.gq_optional.specs.Made.{AreCovered, AreFew, AreListed, IsFew, IsRefusal};
ghost use Rattle.gq_optional.specs.Spending.{HasSpentListed};
ghost use Rattle.gq_optional.specs.steps.Making.{AddsClauses, HasSpentClauses, HasSpentEach};
ghost use Rattle.gq_optional.specs.steps.Making.{CanHold, IsClauseOf, IsEachRefusal};
ghost use Rattle.gq_plan.specs.Plans.{plan_of};
ghost use Rattle.gq_pool.specs.Pool.{spare_of};
ghost use Rattle.gq_outer.specs.Placed.{IsPlaced};

use crate::clause::Clause;
use crate::gathering::{list_each, places_of, shared_of};
use crate::optional_walk::OptionalWalk;
use gq_base::{List, Memory};
use gq_eval::evaluators;
use gq_join::JoinRefusal;
use gq_pipe::Spent;
use gq_plan::{OptionalPart, Plan};
use gq_pool::VectorPool;
use gq_store::Graph;
use std::alloc::Global;
use std::marker::Model;

/// Which variables the rows of a query have.
#[derive(Clone, Copy)]
pub struct RowShape {
    /// How many node variables.
    pub nodes: u32,
    /// How many relationship variables.
    pub rels: u32,
    /// How many of the node variables stand before the optional clauses; these come first.
    pub first: u32,
}

/// The optional clauses of a query over a graph, with the matches of their alternatives, to be found
/// by the variables that stand before each clause.
#[derive(Drop)]
pub struct Optionals<'b> {
    graph: &'b Graph,
    shape: RowShape,
    clauses: List<Clause<'b>>,
    spent: List<Spent>,
}

impl<'b> Model for Optionals<'b> {
    ghost use Rattle.std.specs.Coded.{codes};
    ghost use Rattle.gq_expr.specs.contracts.expr.Expr as expr;
    ghost use Rattle.gq_optional.specs.Held.{Holding};

    ghost Value = { Holding };

    ghost coded = { Prim.hlevel (codes, expr.the_row.coded) };

    ghost use Rattle.gq_optional.specs.steps.Walks.{holding_of, IsHolding};

    ghost view = { holding_of };

    ghost invariant = { IsHolding };
}

impl<'b> Optionals<'b> {
    /// What these plans make of the alternatives of optional clauses. `TooManyRows` comes exactly
    /// where one of them, or a side plan of one, makes more assignments than the limit. The slots of
    /// the pool that are out afterwards are those that were before, after a refusal too.
    pub fn make(
        alloc: Global,
        graph: &'b Graph,
        parts: &'b [OptionalPart],
        plans: &[List<Plan>],
        shape: RowShape,
        pool: &mut VectorPool,
        limit: u32,
    ) -> Result<Optionals<'b>, JoinRefusal>
        requires placed { let placed = IsPlaced shape.nodes shape.rels graph.now.catalog in
            All placed parts.now }
        requires covers { let covered = AreCovered graph.now.catalog in
            AllZip covered parts.now (map (map plan_of) plans.now) }
        requires room { 112 ≤ spare_of pool.old }
        ensures graph { IfOk result (λ o. o.held.graph ≡ graph.now) }
        ensures shape { IfOk result (λ o. o.held.shape ≡ shape) }
        ensures parts { IfOk result (λ o. o.held.parts ≡ parts.now) }
        ensures lists { let pss = map (map plan_of) plans.now in
            IfOk result (λ o. AreListed graph.now parts.now pss o.held.lists) }
        ensures spent { let pss = map (map plan_of) plans.now in
            IfOk result (λ o. HasSpentListed graph.now parts.now pss o.spent) }
        ensures few { let pss = map (map plan_of) plans.now in
            OnOk result (AreFew graph.now limit parts.now pss) }
        ensures refused { let pss = map (map plan_of) plans.now in
            IfErr result (IsRefusal graph.now limit parts.now pss) }
        ensures pool { pool.new.out ≡ pool.old.out }
    {
        graph.stands_valid();
        let mut known = first_variables(alloc, shape.first)?;
        let mut clauses = List::new(alloc);
        let mut spent = List::new(alloc);
        match hold_each(
            &mut clauses,
            &mut spent,
            &mut known,
            alloc,
            graph,
            parts,
            plans,
            pool,
            limit,
        ) {
            Ok(()) => {}
            Err(refusal) => return Err(refusal),
        }
        Ok(Optionals {
            graph,
            shape,
            clauses,
            spent,
        })
    }

    /// A walk over the rows that the clauses make of rows, which owes nothing yet.
    pub fn walk<'w>(&'w self, alloc: Global) -> Result<OptionalWalk<'w>, Memory>
        ensures held { IfOk result (λ w. w.held ≡ self.now.held) }
        ensures owed { IfOk result (λ w. rows_owed w ≡ []) }
    {
        OptionalWalk::new(alloc, self.graph, self.shape, self.clauses.as_slice())
    }

    /// What the pipelines spent that made them.
    pub fn spent(&self) -> &List<Spent>
        ensures { result.now ≡ self.now.spent }
    {
        &self.spent
    }

    /// The same, moved out of the clauses, which are given up.
    pub fn into_spent(self) -> List<Spent>
        ensures { result ≡ self.entry.spent }
    {
        let Optionals {
            graph: _,
            shape: _,
            clauses: _,
            spent,
        } = self;
        spent
    }
}

// The numbers of so many variables.
fn first_variables(alloc: Global, count: u32) -> Result<Vec<u32>, Memory>
    ensures { IfOk result (λ all. all.items ≡ range_with_len 0 count) }
{
    let mut all = Vec::new(alloc);
    for variable in 0..count {
        all.push(variable)?;
    }
    Ok(all)
}

// Adds variables to those that are known.
fn make_known(known: &mut Vec<u32>, more: &[u32]) -> Result<(), Memory>
    ensures { OnOk result (known.new.items ≡ known.old.items ++ more.now) }
{
    known.extend_from_slice(more)?;
    Ok(())
}

// A clause, with what plans make of its alternatives, to be found by the variables that are known.
fn hold<'b>(
    spent: &mut List<Spent>,
    known: &[u32],
    alloc: Global,
    graph: &'b Graph,
    part: &'b OptionalPart,
    plans: &[Plan],
    pool: &mut VectorPool,
    limit: u32,
) -> Result<Clause<'b>, JoinRefusal>
    requires part { CanHold graph.now.catalog part.now }
    requires covers { AreCovered graph.now.catalog part.now (map plan_of plans.now) }
    requires room { 112 ≤ spare_of pool.old }
    ensures clause { let ps = map plan_of plans.now in
        IfOk result (IsClauseOf graph.now known.now part.now ps) }
    ensures spent { let ps = map plan_of plans.now in
        OnOk result (HasSpentEach graph.now part.now.alternatives ps spent.old spent.new) }
    ensures few { let ps = map plan_of plans.now in
        OnOk result (AllZip (IsFew graph.now limit) part.now.alternatives ps) }
    ensures refused { let ps = map plan_of plans.now in
        IfErr result (IsEachRefusal graph.now limit part.now.alternatives ps) }
    ensures pool { pool.new.out ≡ pool.old.out }
{
    graph.stands_valid();
    let nodes = part.nodes.as_slice();
    if nodes.len() > u32::MAX as usize {
        return Err(JoinRefusal::Memory(Memory::Limit));
    }
    let shared = shared_of(alloc, known, nodes)?;
    let keys = places_of(alloc, shared.as_slice())?;
    let conjuncts = evaluators(alloc, part.conjuncts.as_slice(), graph)?;
    let mut matches = List::new(alloc);
    let alternatives = part.alternatives.as_slice();
    match list_each(
        &mut matches,
        spent,
        alloc,
        graph,
        alternatives,
        plans,
        keys.as_slice(),
        pool,
        limit,
    ) {
        Ok(()) => {}
        Err(refusal) => return Err(refusal),
    }
    Ok(Clause {
        part,
        conjuncts,
        shared,
        matches: matches.into_vec(),
    })
}

// Clauses, with what plans make of their alternatives, behind others. The variables of each are
// known to those behind it.
fn hold_each<'b>(
    clauses: &mut List<Clause<'b>>,
    spent: &mut List<Spent>,
    known: &mut Vec<u32>,
    alloc: Global,
    graph: &'b Graph,
    parts: &'b [OptionalPart],
    plans: &[List<Plan>],
    pool: &mut VectorPool,
    limit: u32,
) -> Result<(), JoinRefusal>
    requires parts { All (CanHold graph.now.catalog) parts.now }
    requires covers { let pss = map (map plan_of) plans.now in
        AllZip (AreCovered graph.now.catalog) parts.now pss }
    requires room { 112 ≤ spare_of pool.old }
    ensures adds { let pss = map (map plan_of) plans.now in
        OnOk result (AddsClauses graph.now known.old.items parts.now pss
        clauses.old clauses.new) }
    ensures spent { let pss = map (map plan_of) plans.now in
        OnOk result (HasSpentClauses graph.now parts.now pss spent.old spent.new) }
    ensures few { let pss = map (map plan_of) plans.now in
        OnOk result (AreFew graph.now limit parts.now pss) }
    ensures refused { let pss = map (map plan_of) plans.now in
        IfErr result (IsRefusal graph.now limit parts.now pss) }
    ensures pool { pool.new.out ≡ pool.old.out }
{
    let Some((part, parts)) = parts.split_first() else {
        return Ok(());
    };
    let Some((own, plans)) = plans.split_first() else {
        return Ok(());
    };
    let known_here = known.as_slice();
    let clause = match hold(
        spent,
        known_here,
        alloc,
        graph,
        part,
        own.as_slice(),
        pool,
        limit,
    ) {
        Ok(clause) => clause,
        Err(refusal) => return Err(refusal),
    };
    clauses.push(clause)?;
    make_known(known, part.nodes.as_slice())?;
    hold_each(
        clauses, spent, known, alloc, graph, parts, plans, pool, limit,
    )
}
