//! The choices of a chunk whose first key tells that they come behind the bar: they are gone past.
//! Where the positions of one group decide the key, and its items follow one another, many of them
//! are told at once, and that stays known as long as the bar does not fall back.
ghost use Rattle.std.specs.Prelude.{◌≡◌, ◌<◌, ◌≤◌, ◌^◌, All, Bool, IfSome, List, false};
ghost use Rattle.std.specs.Prelude.{length, true, ℕ};
ghost use Rattle.gq_expr.specs.Reading as reading;
ghost use Rattle.gq_group.specs.Choices.{IsChoice};
ghost use Rattle.gq_group.specs.Chunks.{IsChunk, IsChunkOf, assignment_at};
ghost use Rattle.gq_group.specs.Groups.{AreSelected, IsGroup};
ghost use Rattle.gq_group.specs.declared.chunk.Chunk.{Chunk as Parts};
ghost use Rattle.gq_kept.specs.Tables.{Held, StandsForSome, Table, is_full_table};
ghost use Rattle.gq_kept.specs.steps.Choosing.{Came, choices_left};
ghost use Rattle.gq_plan.specs.Assignments.{row_of};
ghost use Rattle.gq_plan.specs.Rows.{assigned};
ghost use Rattle.gq_plan.specs.declared.bound.Bound.{Bound as Query};
ghost use Rattle.gq_plan.specs.declared.typed.Typed.{Typed as Alternative};
ghost use Rattle.gq_rows.specs.steps.Keyed.{IsLeading, IsLedValue, LeadsSome, PassesOver};
ghost use Rattle.gq_rows.specs.steps.Past.{GoesOn, IsPast, IsTold};
ghost use Rattle.gq_rows.specs.steps.Sinks.{IsSink, held_by, table_by};

use crate::sink::Sink;
use gq_base::Value;
use gq_group::{Choice, Chunk};
use gq_listed::{Finder, KeyFinder, Window};
use gq_plan::Typed;
use gq_project::Question;
use gq_store::Graph;
use gq_values::FirstBar;

/// What is known of the positions of a chunk: where one is not left, the first key comes behind a
/// bar.
#[derive(Drop)]
pub(crate) struct Past<'g> {
    bar: FirstBar<'g>,
    window: Window,
}

/// What is known before positions are looked at, where many may be looked at together.
#[inline(never)]
pub(crate) fn begin<'g>(
    sink: &Sink<'g>,
    question: &Question<'_, 'g>,
    first: &KeyFinder<'g>,
    lead: &Option<Finder>,
    chunk: &Chunk<'_, '_>,
) -> Option<Past<'g>>
    requires chunk { IsChunk chunk.now }
    requires sink { IsSink question.now.graph.now question.now.bound.now sink.now }
    requires small { question.now.limit < 2 ^ 32 }
    requires stands { StandsForSome (table_by question.now (held_by sink.now)) }
    requires room { is_full_table (table_by question.now (held_by sink.now)) ≡ false }
    ensures { (y : Alternative) → let q = question.now in
        let leads = IsLeading q.graph.now q.bound.now y chunk.now first.now.cells.sources in
        let table = table_by q (held_by sink.now) in
        IfSome lead.now leads → IfSome result (IsPast q.graph.now q.bound.now y chunk.now table) }
{
    let Some(finder) = lead else {
        return None;
    };
    let Some(window) = first.window(finder, chunk) else {
        return None;
    };
    let Some(bar) = sink.first_bar(question) else {
        return None;
    };
    Some(Past { bar, window })
}

/// What was known stays known where the bar did not fall back.
#[inline(always)]
pub(crate) fn recall<'g>(past: &mut Option<Past<'g>>, sink: &Sink<'g>, question: &Question<'_, 'g>)
    requires sink { IsSink question.now.graph.now question.now.bound.now sink.now }
    requires small { question.now.limit < 2 ^ 32 }
    requires stands { StandsForSome (table_by question.now (held_by sink.now)) }
    requires room { is_full_table (table_by question.now (held_by sink.now)) ≡ false }
    ensures { (y : Alternative) (c : Parts) → let q = question.now in
        let table = table_by q (held_by sink.now) in
        IfSome past.old (IsTold q.graph.now q.bound.now y c)
        → IfSome past.new (IsPast q.graph.now q.bound.now y c table) }
{
    match past {
        None => {}
        Some(known) => if !stays(known, sink, question) {
            *past = None;
        },
    }
}

// Whether it stays known: then it is told of the bar as it is.
fn stays<'g>(known: &mut Past<'g>, sink: &Sink<'g>, question: &Question<'_, 'g>) -> bool
    requires sink { IsSink question.now.graph.now question.now.bound.now sink.now }
    requires small { question.now.limit < 2 ^ 32 }
    requires stands { StandsForSome (table_by question.now (held_by sink.now)) }
    requires room { is_full_table (table_by question.now (held_by sink.now)) ≡ false }
    ensures { (y : Alternative) (c : Parts) → let q = question.now in
        let table = table_by q (held_by sink.now) in
        result ≡ true → IsTold q.graph.now q.bound.now y c known.old
        → IsPast q.graph.now q.bound.now y c table known.new }
{
    let Some(bar) = sink.first_bar(question) else {
        return false;
    };
    if !bar.covers(&known.bar) {
        return false;
    }
    known.bar = bar;
    true
}

/// Goes past the choices that are known to come behind the bar, from the one that stands on, and
/// answers whether one is left. The lead finds the value of the first key, where there is one.
#[inline(always)]
pub(crate) fn pass_behind<'g>(
    past: &mut Option<Past<'g>>,
    sink: &Sink<'g>,
    question: &Question<'_, 'g>,
    typed: &Typed,
    first: &KeyFinder<'g>,
    lead: &Option<Finder>,
    choice: &mut Choice,
    chunk: &Chunk<'_, '_>,
) -> bool
    requires chunk { IsChunkOf question.now.graph.now typed.now chunk.now }
    requires lead { let q = question.now in
        let leads = IsLeading q.graph.now q.bound.now typed.now chunk.now in
        IfSome lead.now (leads first.now.cells.sources) }
    requires sink { IsSink question.now.graph.now question.now.bound.now sink.now }
    requires small { question.now.limit < 2 ^ 32 }
    requires stands { StandsForSome (table_by question.now (held_by sink.now)) }
    requires room { is_full_table (table_by question.now (held_by sink.now)) ≡ false }
    requires choice { IsChoice chunk.now.groups.now choice.old }
    requires past { let q = question.now in let table = table_by q (held_by sink.now) in
        IfSome past.old (IsPast q.graph.now q.bound.now typed.now chunk.now table) }
    ensures came { (admitted : reading.Assignment → Bool) (held : Held) → let q = question.now in
        let table = table_by q (held_by sink.now) in
        let came = Came admitted q.graph.now typed.now chunk.now (table_by q held) table in
        came true choice.old → came result choice.new }
    ensures left { length (choices_left chunk.now.groups.now result choice.new)
        ≤ length (choices_left chunk.now.groups.now true choice.old) }
    ensures past { let q = question.now in let table = table_by q (held_by sink.now) in
        IfSome past.new (IsPast q.graph.now q.bound.now typed.now chunk.now table) }
{
    let positions = choice.positions();
    if !is_behind(sink, question, typed, first, lead, chunk, positions) {
        return true;
    }
    pass_more(past, sink, question, typed, first, lead, choice, chunk)
}

// The same, where that is so of many.
#[inline(never)]
fn pass_more<'g>(
    past: &mut Option<Past<'g>>,
    sink: &Sink<'g>,
    question: &Question<'_, 'g>,
    typed: &Typed,
    first: &KeyFinder<'g>,
    lead: &Option<Finder>,
    choice: &mut Choice,
    chunk: &Chunk<'_, '_>,
) -> bool
    requires chunk { IsChunkOf question.now.graph.now typed.now chunk.now }
    requires lead { let q = question.now in
        let leads = IsLeading q.graph.now q.bound.now typed.now chunk.now in
        IfSome lead.now (leads first.now.cells.sources) }
    requires sink { IsSink question.now.graph.now question.now.bound.now sink.now }
    requires small { question.now.limit < 2 ^ 32 }
    requires stands { StandsForSome (table_by question.now (held_by sink.now)) }
    requires room { is_full_table (table_by question.now (held_by sink.now)) ≡ false }
    requires choice { IsChoice chunk.now.groups.now choice.old }
    requires past { let q = question.now in let table = table_by q (held_by sink.now) in
        IfSome past.old (IsPast q.graph.now q.bound.now typed.now chunk.now table) }
    ensures came { (admitted : reading.Assignment → Bool) (held : Held) → let q = question.now in
        let table = table_by q (held_by sink.now) in
        let came = Came admitted q.graph.now typed.now chunk.now (table_by q held) table in
        came true choice.old → came result choice.new }
    ensures left { length (choices_left chunk.now.groups.now result choice.new)
        ≤ length (choices_left chunk.now.groups.now true choice.old) }
    ensures past { let q = question.now in let table = table_by q (held_by sink.now) in
        IfSome past.new (IsPast q.graph.now q.bound.now typed.now chunk.now table) }
{
    let mut found = true;
    'choices: while found {
        let positions = choice.positions();
        if !is_behind(sink, question, typed, first, lead, chunk, positions) {
            return true;
        }
        look(past, question, typed, first, lead, chunk, positions);
        found = go_on(past, choice, chunk);
    }
    false
}

// Looks at the positions from those on, where that was not done.
#[inline(always)]
fn look<'g>(
    past: &mut Option<Past<'g>>,
    question: &Question<'_, 'g>,
    typed: &Typed,
    first: &KeyFinder<'g>,
    lead: &Option<Finder>,
    chunk: &Chunk<'_, '_>,
    positions: &[u32],
)
    requires chunk { IsChunkOf question.now.graph.now typed.now chunk.now }
    requires selected { AreSelected chunk.now.groups.now positions.now }
    requires lead { let q = question.now in
        let leads = IsLeading q.graph.now q.bound.now typed.now chunk.now in
        IfSome lead.now (leads first.now.cells.sources) }
    ensures { (t : Table) → let q = question.now in
        let is_past = IsPast q.graph.now q.bound.now typed.now chunk.now t in
        IfSome past.old is_past → IfSome past.new is_past }
{
    let Some(finder) = lead else {
        return;
    };
    match past {
        None => {}
        Some(known) => look_on(known, question, typed, first, finder, chunk, positions),
    }
}

#[inline(always)]
fn look_on<'g>(
    known: &mut Past<'g>,
    question: &Question<'_, 'g>,
    typed: &Typed,
    first: &KeyFinder<'g>,
    finder: &Finder,
    chunk: &Chunk<'_, '_>,
    positions: &[u32],
)
    requires chunk { IsChunkOf question.now.graph.now typed.now chunk.now }
    requires selected { AreSelected chunk.now.groups.now positions.now }
    requires lead { let q = question.now in
        let leads = IsLeading q.graph.now q.bound.now typed.now chunk.now in
        leads first.now.cells.sources finder.now }
    ensures bar { known.new.bar ≡ known.old.bar }
    ensures told { let q = question.now in
        let is_told = IsTold q.graph.now q.bound.now typed.now chunk.now in
        is_told known.old → is_told known.new }
{
    if !known.window.is_new(positions) {
        return;
    }
    let graph = question.graph;
    let bar = known.bar;
    first.behind(
        &mut known.window,
        finder,
        graph,
        typed,
        chunk,
        positions,
        bar.down,
        &bar.value,
    );
}

// Goes on to the next choice that may be left.
#[inline(always)]
fn go_on(past: &Option<Past<'_>>, choice: &mut Choice, chunk: &Chunk<'_, '_>) -> bool
    requires groups { All IsGroup chunk.now.groups.now }
    requires stands { IsChoice chunk.now.groups.now choice.old }
    ensures { GoesOn chunk.now.groups.now past.now choice.old result choice.new }
{
    match past {
        None => choice.next(chunk),
        Some(known) => choice.next_among(chunk, known.window.group(), known.window.left()),
    }
}

// Whether one selected position of each group is known to come behind the bar.
#[inline(always)]
fn is_behind<'g>(
    sink: &Sink<'g>,
    question: &Question<'_, 'g>,
    typed: &Typed,
    first: &KeyFinder<'g>,
    lead: &Option<Finder>,
    chunk: &Chunk<'_, '_>,
    positions: &[u32],
) -> bool
    requires chunk { IsChunkOf question.now.graph.now typed.now chunk.now }
    requires selected { AreSelected chunk.now.groups.now positions.now }
    requires lead { let q = question.now in
        let leads = IsLeading q.graph.now q.bound.now typed.now chunk.now in
        IfSome lead.now (leads first.now.cells.sources) }
    requires sink { IsSink question.now.graph.now question.now.bound.now sink.now }
    requires small { question.now.limit < 2 ^ 32 }
    requires stands { StandsForSome (table_by question.now (held_by sink.now)) }
    requires room { is_full_table (table_by question.now (held_by sink.now)) ≡ false }
    ensures { let q = question.now in let table = table_by q (held_by sink.now) in
        result ≡ true
        → PassesOver q.graph.now q.bound.now typed.now chunk.now table positions.now }
{
    let value = first_value(first, lead, question.graph, typed, chunk, positions);
    sink.passes_over(question, &value)
}

// The value of the first key of a query at one selected position of each group, if something finds
// it.
#[inline(always)]
fn first_value<'g>(
    first: &KeyFinder<'g>,
    lead: &Option<Finder>,
    graph: &Graph,
    typed: &Typed,
    chunk: &Chunk<'_, '_>,
    positions: &[u32],
) -> Option<Value<'g>>
    requires chunk { IsChunkOf graph.now typed.now chunk.now }
    requires selected { AreSelected chunk.now.groups.now positions.now }
    requires lead { LeadsSome graph.now typed.now chunk.now first.now.cells.sources lead.now }
    ensures { let here = assignment_at graph.now typed.now chunk.now positions.now in
        let read = row_of (assigned typed.now here) in
        let sources = first.now.cells.sources in
        (b : Query) → IfSome lead.now (IsLeading graph.now b typed.now chunk.now sources)
        → IfSome result (IsLedValue graph.now b typed.now read) }
{
    match lead {
        None => None,
        Some(finder) => first.value_at(finder, graph, typed, chunk, positions),
    }
}
