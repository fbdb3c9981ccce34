//! Rows that are held as cells: those of a query without DISTINCT and without ORDER BY.
ghost use Rattle.std.specs.Prelude.{◌≡◌, ◌<◌, ◌^◌, [], Some, OnOk, false, true};
ghost use Rattle.gq_eval.specs.Asked.{answers, asked_of};
ghost use Rattle.gq_eval.specs.Judged.{judged_after};
ghost use Rattle.gq_eval.specs.declared.judging.Verdict.TheVariants.{Pass};
ghost use Rattle.gq_group.specs.Choices.{Begins};
ghost use Rattle.gq_group.specs.Chunks.{IsChunkOf};
ghost use Rattle.gq_kept.specs.Chunks.{PushesAll, admitted_outcomes};
ghost use Rattle.gq_kept.specs.Forms.{TellsFull};
ghost use Rattle.gq_kept.specs.Tables.{Pushes, StandsForSome, is_full_table};
ghost use Rattle.gq_listed.specs.Finding.{Extends};
ghost use Rattle.gq_listed.specs.Leads.{AreLed, AreLedAt, IsSpot, here_at};
ghost use Rattle.gq_listed.specs.Listed.{AddsIn, AreFinders, AreOver, Finding, IsAsked};
ghost use Rattle.gq_listed.specs.Listed.{IsListing, PutsRow, held_in, is_listing, outcome_in};
ghost use Rattle.gq_listed.specs.Listed.{outcome_within, table_in};
ghost use Rattle.gq_project.specs.Reading.{at_numbers};

use crate::finder::{Finder, put_column, put_led_column};
use crate::leads::Spot;
use crate::tables::Tables;
use gq_base::{List, Memory, Value};
use gq_cells::{Cells, Source};
use gq_eval::{Evaluator, Verdict};
use gq_expr::Assigned;
use gq_group::{Choice, Chunk};
use gq_kept::{Form, More, RowRefusal, may_keep};
use gq_plan::{Bound, Typed};
use gq_project::{Admits, Conjunct, Reading, check_late};
use gq_store::Graph;

/// What is asked of each row where the rows are listed as they come, and the most rows that are
/// kept.
#[derive(Clone, Copy)]
pub struct Asked<'q, 'g> {
    pub graph: &'g Graph,
    pub bound: &'g Bound,
    /// The numbers of the conjuncts that are left.
    pub late: &'g [u32],
    pub limit: u32,
    pub form: Form,
    /// The columns and the conjuncts as they are evaluated over the graph.
    pub reading: &'q Reading<'g>,
}

/// The values of rows, one row after another, as cells, and how many rows they are.
#[derive(Drop)]
pub struct Listed<'g> {
    pub cells: Cells<'g>,
    pub count: usize,
}

/// Whether the rows of a query are listed as they come.
pub fn is_listing(bound: &Bound) -> bool
    ensures { result ≡ is_listing bound.now }
{
    !bound.distinct && bound.keys.is_empty()
}

/// How the values of columns are kept for an alternative in a graph, in the place of what was
/// there; where that was done, it stays. It is called for each row, and then mostly there is nothing
/// to do.
#[inline(always)]
pub fn find_columns<'g>(
    done: bool,
    cells: &mut Cells<'g>,
    finders: &mut Vec<Finder>,
    bound: &Bound,
    typed: &Typed,
    graph: &'g Graph,
) -> Result<(), Memory>
    requires { let columns = asked_of graph.now bound.now.columns in
        done ≡ true → AreFinders cells.old.sources columns finders.old.items }
    ensures finds { let columns = asked_of graph.now bound.now.columns in
        OnOk result (AreFinders cells.new.sources columns finders.new.items) }
    ensures values { cells.new.values ≡ cells.old.values }
{
    if done {
        return Ok(());
    }
    make_finders(cells, finders, bound, typed, graph)
}

// How they are kept, found anew.
fn make_finders<'g>(
    cells: &mut Cells<'g>,
    finders: &mut Vec<Finder>,
    bound: &Bound,
    typed: &Typed,
    graph: &'g Graph,
) -> Result<(), Memory>
    ensures finds { let columns = asked_of graph.now bound.now.columns in
        OnOk result (AreFinders cells.new.sources columns finders.new.items) }
    ensures values { cells.new.values ≡ cells.old.values }
{
    let tables = Tables { bound, typed };
    let columns = bound.columns.as_slice();
    let null = cells.add(Source::Value(Value::Null))?;
    finders.clear();
    'columns: for column in columns {
        let finder = Finder::new(cells, null, column.expr.get(), &tables, graph)?;
        finders.push(finder)?;
    }
    Ok(())
}

// Appends the values of columns for an assignment.
fn put_row<'g, R: Assigned>(
    cells: &mut Cells<'g>,
    finders: &[Finder],
    columns: &[Evaluator<'g>],
    graph: &Graph,
    row: &R,
) -> Result<(), RowRefusal>
    requires finders { AreFinders cells.old.sources columns.now finders.now }
    requires graph { AreOver graph.now columns.now }
    ensures puts { PutsRow (answers (R.assignment row.now) columns.now)
        cells.old.values cells.new.values result }
    ensures more { OnOk result (Extends cells.old.sources cells.new.sources) }
{
    'values: for (column, finder) in columns.iter().zip(finders) {
        match put_column(cells, finder, column, graph, row) {
            Ok(()) => {}
            Err(refusal) => return Err(refusal),
        }
    }
    Ok(())
}

// The same at one selected position of each group of a chunk.
#[inline(always)]
fn put_led_row<'g>(
    cells: &mut Cells<'g>,
    finders: &[Finder],
    columns: &[Evaluator<'g>],
    spot: &Spot<'_, '_, '_>,
) -> Result<(), RowRefusal>
    requires finders { AreFinders cells.old.sources columns.now finders.now }
    requires graph { AreOver spot.now.graph.now columns.now }
    requires spot { IsSpot spot.now }
    requires led { AreLedAt spot.now finders.now }
    ensures puts { PutsRow (answers (here_at spot.now) columns.now)
        cells.old.values cells.new.values result }
    ensures more { OnOk result (Extends cells.old.sources cells.new.sources) }
{
    'values: for (column, finder) in columns.iter().zip(finders) {
        match put_led_column(cells, finder, column, spot) {
            Ok(()) => {}
            Err(refusal) => return Err(refusal),
        }
    }
    Ok(())
}

// What the conjuncts that are left say of an assignment. Mostly there are none.
#[inline(always)]
fn check_left<R: Assigned>(conjuncts: &List<Conjunct<'_>>, late: &[u32], row: &R) -> Verdict
    ensures { let left = at_numbers conjuncts.now late.now in
        result ≡ judged_after Pass (answers (R.assignment row.now) left) }
{
    match late {
        [] => Verdict::Pass,
        _ => check_late(conjuncts, late, row),
    }
}

impl<'g> Listed<'g> {
    // Adds the row of an assignment, unless it is dropped.
    fn add<R: Assigned>(
        &mut self,
        finders: &[Finder],
        asked: &Asked<'_, 'g>,
        row: &R,
    ) -> Result<bool, RowRefusal>
        requires few { self.old.count < 2 ^ 40 }
        requires keyless { asked.now.bound.now.keys ≡ [] }
        requires reading { IsAsked asked.now }
        requires finders { Finding asked.now self.old.cells.sources finders.now }
        ensures adds { AddsIn asked.now (outcome_in asked.now (R.assignment row.now))
            self.old self.new result }
        ensures more { OnOk result (Extends self.old.cells.sources self.new.cells.sources) }
    {
        match check_late(&asked.reading.conjuncts, asked.late, row) {
            Verdict::Dropped => return Ok(false),
            Verdict::Fault(fault) => return Err(RowRefusal::Fault(fault)),
            Verdict::Pass => {}
        }
        let columns = asked.reading.columns.as_slice();
        match put_row(&mut self.cells, finders, columns, asked.graph, row) {
            Ok(()) => {}
            Err(refusal) => return Err(refusal),
        }
        if !may_keep(self.count, asked.limit) {
            return Err(RowRefusal::TooManyRows { limit: asked.limit });
        }
        self.count += 1;
        Ok(true)
    }

    // The same at one selected position of each group of a chunk.
    #[inline(always)]
    fn add_led(
        &mut self,
        finders: &[Finder],
        asked: &Asked<'_, 'g>,
        spot: &Spot<'_, '_, '_>,
    ) -> Result<bool, RowRefusal>
        requires few { self.old.count < 2 ^ 40 }
        requires keyless { asked.now.bound.now.keys ≡ [] }
        requires reading { IsAsked asked.now }
        requires finders { Finding asked.now self.old.cells.sources finders.now }
        requires graph { spot.now.graph.now ≡ asked.now.graph.now }
        requires spot { IsSpot spot.now }
        requires led { AreLedAt spot.now finders.now }
        ensures adds { AddsIn asked.now (outcome_in asked.now (here_at spot.now))
            self.old self.new result }
        ensures more { OnOk result (Extends self.old.cells.sources self.new.cells.sources) }
    {
        match check_left(&asked.reading.conjuncts, asked.late, &spot.row()) {
            Verdict::Dropped => return Ok(false),
            Verdict::Fault(fault) => return Err(RowRefusal::Fault(fault)),
            Verdict::Pass => {}
        }
        let columns = asked.reading.columns.as_slice();
        match put_led_row(&mut self.cells, finders, columns, spot) {
            Ok(()) => {}
            Err(refusal) => return Err(refusal),
        }
        if !may_keep(self.count, asked.limit) {
            return Err(RowRefusal::TooManyRows { limit: asked.limit });
        }
        self.count += 1;
        Ok(true)
    }

    // Whether another row can change what is answered.
    fn more(&self, form: Form) -> More
        ensures { TellsFull form result (held_in self.now) }
    {
        match form {
            Form::First(n) => if self.count >= n {
                More::Enough
            } else {
                More::Go
            },
            Form::All | Form::Top(_) | Form::Classes => More::Go,
        }
    }

    /// Takes an assignment.
    pub fn push<R: Assigned>(
        &mut self,
        finders: &[Finder],
        asked: &Asked<'_, 'g>,
        row: &R,
    ) -> Result<More, RowRefusal>
        requires listing { IsListing asked.now }
        requires reading { IsAsked asked.now }
        requires finders { Finding asked.now self.old.cells.sources finders.now }
        requires stands { StandsForSome (table_in asked.now self.old) }
        requires room { is_full_table (table_in asked.now self.old) ≡ false }
        ensures pushes { Pushes (outcome_in asked.now (R.assignment row.now))
            (table_in asked.now self.old) (table_in asked.now self.new) result }
        ensures more { OnOk result (Extends self.old.cells.sources self.new.cells.sources) }
    {
        match self.add(finders, asked, row) {
            Ok(_) => Ok(self.more(asked.form)),
            Err(refusal) => Err(refusal),
        }
    }

    // Takes an assignment at one selected position of each group of a chunk.
    #[inline(always)]
    fn push_led(
        &mut self,
        finders: &[Finder],
        asked: &Asked<'_, 'g>,
        spot: &Spot<'_, '_, '_>,
    ) -> Result<More, RowRefusal>
        requires listing { IsListing asked.now }
        requires reading { IsAsked asked.now }
        requires finders { Finding asked.now self.old.cells.sources finders.now }
        requires graph { spot.now.graph.now ≡ asked.now.graph.now }
        requires spot { IsSpot spot.now }
        requires led { AreLedAt spot.now finders.now }
        requires stands { StandsForSome (table_in asked.now self.old) }
        requires room { is_full_table (table_in asked.now self.old) ≡ false }
        ensures pushes { Pushes (outcome_in asked.now (here_at spot.now))
            (table_in asked.now self.old) (table_in asked.now self.new) result }
        ensures more { OnOk result (Extends self.old.cells.sources self.new.cells.sources) }
    {
        match self.add_led(finders, asked, spot) {
            Ok(_) => Ok(self.more(asked.form)),
            Err(refusal) => Err(refusal),
        }
    }

    // The same, if it is admitted.
    #[inline(always)]
    fn push_spot<A: Admits>(
        &mut self,
        finders: &[Finder],
        asked: &Asked<'_, 'g>,
        spot: &Spot<'_, '_, '_>,
        admits: &A,
    ) -> Result<More, RowRefusal>
        requires listing { IsListing asked.now }
        requires reading { IsAsked asked.now }
        requires finders { Finding asked.now self.old.cells.sources finders.now }
        requires graph { spot.now.graph.now ≡ asked.now.graph.now }
        requires spot { IsSpot spot.now }
        requires led { AreLedAt spot.now finders.now }
        requires stands { StandsForSome (table_in asked.now self.old) }
        requires room { is_full_table (table_in asked.now self.old) ≡ false }
        ensures pushes { let admitted = A.admitted admits.now in
            Pushes (outcome_within admitted asked.now (here_at spot.now))
            (table_in asked.now self.old) (table_in asked.now self.new) result }
        ensures more { OnOk result (Extends self.old.cells.sources self.new.cells.sources) }
    {
        if !admits.admits(&spot.row()) {
            return Ok(More::Go);
        }
        self.push_led(finders, asked, spot)
    }

    /// Takes the admitted assignments of the choices of a chunk from the one that stands on.
    pub fn push_choices<A: Admits>(
        &mut self,
        finders: &[Finder],
        asked: &Asked<'_, 'g>,
        choice: &mut Choice,
        chunk: &Chunk<'_, '_>,
        typed: &Typed,
        admits: &A,
    ) -> Result<More, RowRefusal>
        requires chunk { IsChunkOf asked.now.graph.now typed.now chunk.now }
        requires late { asked.now.late.now ≡ typed.now.late }
        requires listing { IsListing asked.now }
        requires reading { IsAsked asked.now }
        requires finders { Finding asked.now self.old.cells.sources finders.now }
        requires led { AreLed asked.now.graph.now typed.now chunk.now finders.now }
        requires stands { StandsForSome (table_in asked.now self.old) }
        requires room { is_full_table (table_in asked.now self.old) ≡ false }
        requires begins { Begins chunk.now.groups.now true choice.old }
        ensures pushes { let q = asked.now in
            let admitted = A.admitted admits.now in
            let y = Some typed.now in
            let os = admitted_outcomes admitted q.graph.now q.bound.now y chunk.now in
            PushesAll os (table_in q self.old) (table_in q self.new) result }
        ensures more { OnOk result (Extends self.old.cells.sources self.new.cells.sources) }
    {
        let mut found = true;
        'choices: while found {
            let spot = Spot {
                graph: asked.graph,
                typed,
                chunk,
                positions: choice.positions(),
            };
            match self.push_spot(finders, asked, &spot, admits) {
                Ok(More::Go) => {}
                Ok(More::Enough) => return Ok(More::Enough),
                Err(refusal) => return Err(refusal),
            }
            found = choice.next(chunk);
        }
        Ok(More::Go)
    }
}
