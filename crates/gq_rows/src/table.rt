//! The table that takes the rows of a query.
ghost use Rattle.std.specs.Prelude.{◌≡◌, [], None, Some, IsSome, OnOk, false, true};
ghost use Rattle.gq_group.specs.Choices.{Begins};
ghost use Rattle.gq_group.specs.Chunks.{IsChunkOf};
ghost use Rattle.gq_group.specs.Groups.{choices};
ghost use Rattle.gq_kept.specs.Chunks.{IsChunkIn, PushesAdmitted, PushesAll, PushesChunk};
ghost use Rattle.gq_kept.specs.Chunks.{admitted_outcomes, counted};
ghost use Rattle.gq_kept.specs.Tables.{IsSameQuery, Pushes, StandsFor, StandsForSome};
ghost use Rattle.gq_kept.specs.Tables.{is_full_table};
ghost use Rattle.gq_outer.specs.Rows.{read};
ghost use Rattle.gq_plan.specs.Marked.{Marked, ending};
ghost use Rattle.gq_rows.specs.Growing.{IsContinued, IsTested};

use crate::choices::push_choices;
use crate::sink::Sink;
use gq_expr::Fault;
use gq_group::{Choice, Chunk};
use gq_kept::{More, RowRefusal};
use gq_listed::KeyFinder;
use gq_outer::WideRow;
use gq_plan::{Bound, Typed};
use gq_project::{Admits, Everything, Question, Reading};
use gq_store::Graph;
use gq_values::are_sure;
use std::alloc::Global;
use std::marker::Model;
use std::mem;

/// The rows of a query as far as they may be answered. It takes the assignments of one alternative
/// after another, and stands for the listing of their outcomes.
///
/// It holds all rows that are looked at; but with DISTINCT only the first row of each class, and
/// without DISTINCT, with ORDER BY and LIMIT at most twice SKIP plus LIMIT of them.
#[derive(Drop)]
pub struct RowTable<'g> {
    pub(crate) alloc: Global,
    pub(crate) bound: &'g Bound,
    pub(crate) typed: Option<&'g Typed>,
    pub(crate) graph: &'g Graph,
    pub(crate) limit: u32,
    // Each column and each key is sure to have a value.
    pub(crate) sure: bool,
    pub(crate) sink: Sink<'g>,
    pub(crate) reading: Reading<'g>,
    // What finds the value of the first key, for the alternative.
    pub(crate) first: KeyFinder<'g>,
    // The chunks with a row that were pushed, and the positions of the last one.
    pub(crate) pushed: u64,
    pub(crate) choice: Choice,
}

impl<'g> Model for RowTable<'g> {
    ghost use Rattle.std.specs.Coded.{codes};
    ghost use Rattle.gq_expr.specs.contracts.expr.Expr as expr;
    ghost use Rattle.gq_kept.specs.Tables.{Table};

    ghost Value = { Table };

    ghost coded = { Prim.hlevel (codes, expr.the_row.coded) };

    ghost use Rattle.gq_rows.specs.steps.Inner.{IsOfQuery, table_of};

    ghost view = { table_of };

    ghost invariant = { IsOfQuery };
}

impl<'g> RowTable<'g> {
    /// A table without rows, for the rows of a query over a graph, of which at most `limit` are kept.
    /// It takes no memory: columns, keys and conjuncts are made ready once, at the first push.
    pub fn new(alloc: Global, bound: &'g Bound, graph: &'g Graph, limit: u32) -> RowTable<'g>
        ensures none { StandsFor bound.now limit [] result.held }
        ensures bound { result.bound ≡ bound.now }
        ensures most { result.most ≡ limit }
        ensures alternative { result.alternative ≡ None }
        ensures graph { result.graph ≡ graph.now }
        ensures pushed { result.pushed ≡ 0 }
    {
        RowTable {
            alloc,
            bound,
            typed: None,
            graph,
            limit,
            sure: are_sure(bound),
            sink: Sink::new(alloc, bound, graph),
            reading: Reading::new(alloc),
            first: KeyFinder::new(alloc),
            pushed: 0,
            choice: Choice::new(alloc),
        }
    }

    /// The assignments that follow are of this alternative. What is held stays. It takes no memory:
    /// what finds the values of columns is found once, at the first push that follows.
    pub fn start_alternative(&mut self, typed: &'g Typed)
        ensures { self.new ≡ record self.old { alternative = Some typed.now } }
    {
        self.typed = Some(typed);
        self.sink.start_alternative();
        self.reading.start_alternative(typed);
        self.first.finder = None;
    }

    /// Takes the assignments of a chunk of the alternative that was started, by ascending
    /// positions, the first group's deciding first, until all were taken or the table has enough.
    /// After a refusal the table may only be dropped.
    ///
    /// It refuses with the fault of an outcome that is looked at, or where the kept rows would be
    /// more than the limit.
    pub fn push_chunk(&mut self, chunk: &Chunk<'_, '_>) -> Result<More, RowRefusal>
        requires started { IsSome self.old.alternative }
        requires chunk { IsChunkIn self.old.graph self.old.alternative chunk.now }
        requires stands { StandsForSome self.old }
        requires room { is_full_table self.old ≡ false }
        ensures pushes { PushesChunk self.old.graph chunk.now self.old self.new result }
        ensures query { OnOk result (IsSameQuery self.old self.new) }
        ensures counted { let all = choices chunk.now.groups.now in
            OnOk result (self.new.pushed ≡ counted self.old.pushed all) }
    {
        self.push_those(chunk, &Everything)
    }

    /// Takes those of the assignments that are admitted, in the same way. It is called for queries
    /// with tests of paths alone.
    pub fn push_admitted<A: Admits>(
        &mut self,
        chunk: &Chunk<'_, '_>,
        admits: &A,
    ) -> Result<More, RowRefusal>
        requires tested { IsTested self.old.bound }
        requires started { IsSome self.old.alternative }
        requires chunk { IsChunkIn self.old.graph self.old.alternative chunk.now }
        requires stands { StandsForSome self.old }
        requires room { is_full_table self.old ≡ false }
        ensures pushes { let admitted = A.admitted admits.now in
            PushesAdmitted admitted self.old.graph chunk.now self.old self.new result }
        ensures query { OnOk result (IsSameQuery self.old self.new) }
        ensures counted { let all = choices chunk.now.groups.now in
            OnOk result (self.new.pushed ≡ counted self.old.pushed all) }
    {
        self.push_those(chunk, admits)
    }

    // Takes those of the assignments of a chunk that are admitted.
    fn push_those<A: Admits>(
        &mut self,
        chunk: &Chunk<'_, '_>,
        admits: &A,
    ) -> Result<More, RowRefusal>
        requires started { IsSome self.old.alternative }
        requires chunk { IsChunkIn self.old.graph self.old.alternative chunk.now }
        requires stands { StandsForSome self.old }
        requires room { is_full_table self.old ≡ false }
        ensures pushes { let admitted = A.admitted admits.now in
            PushesAdmitted admitted self.old.graph chunk.now self.old self.new result }
        ensures query { OnOk result (IsSameQuery self.old self.new) }
        ensures counted { let all = choices chunk.now.groups.now in
            OnOk result (self.new.pushed ≡ counted self.old.pushed all) }
    {
        let Some(typed) = self.typed else {
            unreachable!()
        };
        let mut choice = mem::replace(&mut self.choice, Choice::new(self.alloc));
        if !choice.first(chunk)? {
            self.choice = choice;
            return Ok(More::Go);
        }
        let answer = self.push_found(&mut choice, chunk, typed, admits);
        self.choice = choice;
        self.pushed = self.pushed.saturating_add(1);
        answer
    }

    /// Takes a row that gives each variable a node, a relationship or nothing: it has no further
    /// conjuncts. Its outcome is the given fault; where none is given, it is the first fault of its
    /// columns and keys, or their values. It is called for queries with optional clauses or trails
    /// alone, whose rows these make. After a refusal the table may only be dropped.
    ///
    /// It refuses with the fault of an outcome that is looked at, or where the kept rows would be
    /// more than the limit. It takes no memory but that in which the table grows.
    pub fn push_wide(&mut self, row: &WideRow, fault: Option<Fault>) -> Result<More, RowRefusal>
        requires continued { IsContinued self.old.bound }
        requires started { IsSome self.old.alternative }
        requires stands { StandsForSome self.old }
        requires room { is_full_table self.old ≡ false }
        ensures pushes { let marked : Marked = record { row = read row.now; mark = fault } in
            Pushes (Some (ending self.old.graph self.old.bound marked)) self.old self.new result }
        ensures query { OnOk result (IsSameQuery self.old self.new) }
        ensures pushed { OnOk result (self.new.pushed ≡ self.old.pushed) }
    {
        let Some(typed) = self.typed else {
            unreachable!()
        };
        match fault {
            Some(fault) => return Err(RowRefusal::Fault(fault)),
            None => {}
        }
        self.reading
            .prepare(self.alloc, self.bound, typed, self.graph)?;
        let question = Question {
            graph: self.graph,
            bound: self.bound,
            late: &[],
            limit: self.limit,
            sure: self.sure,
            reading: &self.reading,
        };
        self.sink.push(self.alloc, &question, typed, row)
    }

    // Takes the admitted assignments of the choices from the one that stands on.
    fn push_found<A: Admits>(
        &mut self,
        choice: &mut Choice,
        chunk: &Chunk<'_, '_>,
        typed: &'g Typed,
        admits: &A,
    ) -> Result<More, RowRefusal>
        requires chunk { IsChunkOf self.old.graph typed.now chunk.now }
        requires stands { StandsForSome self.old }
        requires room { is_full_table self.old ≡ false }
        requires begins { Begins chunk.now.groups.now true choice.old }
        ensures pushes { let y = Some typed.now in
            let admitted = A.admitted admits.now in
            let os = admitted_outcomes admitted self.old.graph self.old.bound y chunk.now in
            PushesAll os self.old self.new result }
        ensures query { OnOk result (IsSameQuery self.old self.new) }
        ensures pushed { OnOk result (self.new.pushed ≡ self.old.pushed) }
    {
        self.reading
            .prepare(self.alloc, self.bound, typed, self.graph)?;
        let question = Question {
            graph: self.graph,
            bound: self.bound,
            late: typed.late.as_slice(),
            limit: self.limit,
            sure: self.sure,
            reading: &self.reading,
        };
        push_choices(
            &mut self.sink,
            &mut self.first,
            self.alloc,
            &question,
            typed,
            choice,
            chunk,
            admits,
        )
    }

    /// Whether further assignments cannot change what the table answers: with LIMIT, but neither
    /// DISTINCT nor ORDER BY, SKIP plus LIMIT rows are held.
    pub fn enough(&self) -> bool
        ensures { result ≡ is_full_table self.now }
    {
        // The number of rows fits its type.
        let _ = self.sink.count();
        self.sink.is_full()
    }
}
