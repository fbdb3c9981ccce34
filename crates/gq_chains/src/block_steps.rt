//! What one step of a chain makes of 64 places that go along it together.
ghost use Rattle.std.specs.Prelude.{◌≡◌, ◌+◌, ◌*◌, ◌<◌, ◌≤◌, ◌^◌, ℕ, length, slice_get, slice_index};
ghost use Rattle.std.specs.Prelude.{IfSome, None, Some, false, true};
ghost use Rattle.gq_base.specs.Directions.{opposite};
ghost use Rattle.gq_bits.specs.Places.{is_marked};
ghost use Rattle.gq_plan.specs.Rows.{rel_table};
ghost use Rattle.gq_plan.specs.declared.follow.Follow.{Follow};
ghost use Rattle.gq_chains.specs.steps.Blocks.{IsFound, IsPut, IsWalked, place_row};
ghost use Rattle.gq_chains.specs.steps.Parting.{AreInside, ends_apart};
ghost use Rattle.gq_chains.specs.steps.Ends.{HasPair, HaveEnds, are_apart, ends_differ, source_of, target_of};
ghost use Rattle.gq_steps.specs.Follows.{CanFollow};
ghost use Rattle.gq_steps.specs.Reaching.{Reaches};
ghost use Rattle.gq_store.specs.Neighbours.{is_listed, near_rows, neighbours};
ghost use Rattle.gq_store.specs.Singles.{AreSingles};

use crate::blocks::{ROWS, has_mark};
use gq_base::Direction;
use gq_bits::{Marks, VECTOR};
use gq_edges::Single;
use gq_plan::{Assignment, Follow, RelPair};
use gq_steps::PlanRun;
use gq_store::Graph;

/// Follows a relationship from each marked place, and keeps those from which there is one.
pub(crate) fn reach_block(
    plan_run: &PlanRun<'_>,
    follow: Follow,
    offset: u32,
    row: &Assignment,
    rows: &mut [u32; ROWS],
    marks: &mut Marks,
)
    requires few { length row.now.nodes ≤ 24 }
    requires places { offset + 64 ≤ VECTOR }
    requires can { (j : ℕ) → j < 64 → is_marked marks.old (offset + j) ≡ true → CanFollow
        plan_run.now.graph.now plan_run.now.typed.now (place_row row.now rows.old j) follow }
    ensures { IsWalked (λ j old told new. Reaches plan_run.now.graph.now plan_run.now.typed.now
        follow 0 old told new) row.now offset 64 rows.old rows.new marks.old marks.new }
{
    if !has_mark(marks, offset) {
        return;
    }
    let table = table_of(plan_run, follow.rel);
    if plan_run.graph.listed(table, follow.direction) {
        reach_lists(plan_run, follow, offset, row, rows, marks);
    } else {
        let column = plan_run.graph.singles(table, follow.direction);
        reach_singles(plan_run, follow, column, offset, row, rows, marks);
    }
}

// The same where a row may have many relationships.
fn reach_lists(
    plan_run: &PlanRun<'_>,
    follow: Follow,
    offset: u32,
    row: &Assignment,
    rows: &mut [u32; ROWS],
    marks: &mut Marks,
)
    requires few { length row.now.nodes ≤ 24 }
    requires places { offset + 64 ≤ VECTOR }
    requires can { (j : ℕ) → j < 64 → is_marked marks.old (offset + j) ≡ true → CanFollow
        plan_run.now.graph.now plan_run.now.typed.now (place_row row.now rows.old j) follow }
    requires listed { is_listed plan_run.now.graph.now (rel_table plan_run.now.typed.now follow.rel)
        follow.direction ≡ true }
    ensures { IsWalked (λ j old told new. Reaches plan_run.now.graph.now plan_run.now.typed.now
        follow 0 old told new) row.now offset 64 rows.old rows.new marks.old marks.new }
{
    for at in 0..64 {
        if marks.get(offset + at) {
            let found = next_listed(plan_run, follow, at, row, rows);
            reach_at(plan_run, follow, found, offset, at, row, rows, marks);
        }
    }
}

// The same where a row has one at most.
fn reach_singles(
    plan_run: &PlanRun<'_>,
    follow: Follow,
    column: &Single,
    offset: u32,
    row: &Assignment,
    rows: &mut [u32; ROWS],
    marks: &mut Marks,
)
    requires few { length row.now.nodes ≤ 24 }
    requires places { offset + 64 ≤ VECTOR }
    requires can { (j : ℕ) → j < 64 → is_marked marks.old (offset + j) ≡ true → CanFollow
        plan_run.now.graph.now plan_run.now.typed.now (place_row row.now rows.old j) follow }
    requires column { AreSingles plan_run.now.graph.now (rel_table plan_run.now.typed.now
        follow.rel) follow.direction column.now }
    ensures { IsWalked (λ j old told new. Reaches plan_run.now.graph.now plan_run.now.typed.now
        follow 0 old told new) row.now offset 64 rows.old rows.new marks.old marks.new }
{
    for at in 0..64 {
        if marks.get(offset + at) {
            let found = next_single(plan_run, follow, column, at, row, rows);
            reach_at(plan_run, follow, found, offset, at, row, rows, marks);
        }
    }
}

// Writes the row that was found from one place, which goes if none was.
#[inline(always)]
fn reach_at(
    plan_run: &PlanRun<'_>,
    follow: Follow,
    found: Option<u32>,
    offset: u32,
    at: u32,
    row: &Assignment,
    rows: &mut [u32; ROWS],
    marks: &mut Marks,
)
    requires few { length row.now.nodes ≤ 24 }
    requires places { offset + 64 ≤ VECTOR }
    requires at { at < 64 }
    requires on { is_marked marks.old (offset + at) ≡ true }
    requires can { CanFollow plan_run.now.graph.now plan_run.now.typed.now
        (place_row row.now rows.old at) follow }
    requires found { IsFound plan_run.now.graph.now plan_run.now.typed.now follow
        (place_row row.now rows.old at) found }
    ensures { IsPut (λ j old told new. Reaches plan_run.now.graph.now plan_run.now.typed.now
        follow 0 old told new) row.now offset at rows.old rows.new marks.old marks.new }
{
    let _ = plan_run;
    match found {
        None => marks.set(offset + at, false),
        Some(found) => rows[64 * follow.to as usize + at as usize] = found,
    }
}

// The row to which the first relationship leads in the list of one place.
#[inline(always)]
fn next_listed(
    plan_run: &PlanRun<'_>,
    follow: Follow,
    at: u32,
    row: &Assignment,
    rows: &[u32; ROWS],
) -> Option<u32>
    requires few { length row.now.nodes ≤ 24 }
    requires at { at < 64 }
    requires can { CanFollow plan_run.now.graph.now plan_run.now.typed.now
        (place_row row.now rows.now at) follow }
    requires listed { is_listed plan_run.now.graph.now (rel_table plan_run.now.typed.now follow.rel)
        follow.direction ≡ true }
    ensures { IsFound plan_run.now.graph.now plan_run.now.typed.now follow
        (place_row row.now rows.now at) result }
{
    let table = table_of(plan_run, follow.rel);
    let near = rows[64 * follow.from as usize + at as usize];
    first_listed(plan_run.graph, table, follow.direction, near)
}

// The row to which the only relationship of one place leads.
#[inline(always)]
fn next_single(
    plan_run: &PlanRun<'_>,
    follow: Follow,
    column: &Single,
    at: u32,
    row: &Assignment,
    rows: &[u32; ROWS],
) -> Option<u32>
    requires few { length row.now.nodes ≤ 24 }
    requires at { at < 64 }
    requires can { CanFollow plan_run.now.graph.now plan_run.now.typed.now
        (place_row row.now rows.now at) follow }
    requires column { AreSingles plan_run.now.graph.now (rel_table plan_run.now.typed.now
        follow.rel) follow.direction column.now }
    ensures { IsFound plan_run.now.graph.now plan_run.now.typed.now follow
        (place_row row.now rows.now at) result }
{
    let _ = plan_run;
    column.get(rows[64 * follow.from as usize + at as usize])
}

// The table of a relationship variable.
#[inline(always)]
fn table_of(plan_run: &PlanRun<'_>, rel: u32) -> u32
    requires { rel < length plan_run.now.typed.now.rels }
    ensures { result ≡ rel_table plan_run.now.typed.now rel }
{
    plan_run.typed.rels.as_slice()[rel as usize].table
}

/// Keeps the marked places at which the rows at the ends of a pair are not the same ones.
pub(crate) fn part_block(
    plan_run: &PlanRun<'_>,
    number: u32,
    offset: u32,
    row: &Assignment,
    rows: &mut [u32; ROWS],
    marks: &mut Marks,
)
    requires few { length row.now.nodes ≤ 24 }
    requires places { offset + 64 ≤ VECTOR }
    requires ends { HasPair plan_run.now.typed.now row.now number }
    ensures { IsWalked (λ j old told new. (new ≡ old) × (told ≡ ends_differ plan_run.now.typed.now
        old number)) row.now offset 64 rows.old rows.new marks.old marks.new }
{
    match plan_run.typed.pairs.get(number as usize) {
        None => {}
        Some(pair) => part_pair(plan_run, *pair, offset, row, rows, marks),
    }
}

// The same of a pair that is there.
fn part_pair(
    plan_run: &PlanRun<'_>,
    pair: RelPair,
    offset: u32,
    row: &Assignment,
    rows: &[u32; ROWS],
    marks: &mut Marks,
)
    requires few { length row.now.nodes ≤ 24 }
    requires places { offset + 64 ≤ VECTOR }
    requires ends { HaveEnds plan_run.now.typed.now row.now pair }
    ensures { IsWalked (λ j old told new. (new ≡ old) × (told ≡ are_apart plan_run.now.typed.now
        old pair)) row.now offset 64 rows.now rows.now marks.old marks.new }
{
    let ends = Ends {
        one: source_node(plan_run, pair.first),
        other: source_node(plan_run, pair.second),
        first: target_node(plan_run, pair.first),
        second: target_node(plan_run, pair.second),
    };
    part_ends(ends, offset, row, rows, marks);
}

// The node variables at the ends of the relationships of a pair.
#[derive(Clone, Copy)]
struct Ends {
    one: u32,
    other: u32,
    first: u32,
    second: u32,
}

// The node variable at the source of a relationship variable.
fn source_node(plan_run: &PlanRun<'_>, rel: u32) -> u32
    requires { rel < length plan_run.now.typed.now.rels }
    ensures { result ≡ source_of (slice_get plan_run.now.typed.now.rels rel) }
{
    plan_run.typed.rels.as_slice()[rel as usize].source
}

// That at its target.
fn target_node(plan_run: &PlanRun<'_>, rel: u32) -> u32
    requires { rel < length plan_run.now.typed.now.rels }
    ensures { result ≡ target_of (slice_get plan_run.now.typed.now.rels rel) }
{
    plan_run.typed.rels.as_slice()[rel as usize].target
}

// Keeps the marked places at which a row at one of two ends is another one.
fn part_ends(ends: Ends, offset: u32, row: &Assignment, rows: &[u32; ROWS], marks: &mut Marks)
    requires few { length row.now.nodes ≤ 24 }
    requires places { offset + 64 ≤ VECTOR }
    requires inside { AreInside row.now ends }
    ensures { IsWalked (λ j old told new. (new ≡ old) × (told ≡ ends_apart old ends))
        row.now offset 64 rows.now rows.now marks.old marks.new }
{
    for at in 0..64 {
        part_at(ends, offset, at, row, rows, marks);
    }
}

// The same at one place.
#[inline(always)]
fn part_at(
    ends: Ends,
    offset: u32,
    at: u32,
    row: &Assignment,
    rows: &[u32; ROWS],
    marks: &mut Marks,
)
    requires few { length row.now.nodes ≤ 24 }
    requires places { offset + 64 ≤ VECTOR }
    requires at { at < 64 }
    requires inside { AreInside row.now ends }
    ensures { IsPut (λ j old told new. (new ≡ old) × (told ≡ ends_apart old ends))
        row.now offset at rows.now rows.now marks.old marks.new }
{
    if !rows_differ(ends, at, row, rows) {
        marks.set(offset + at, false);
    }
}

// Whether a row at one of two ends is another one, at one place.
#[inline(always)]
fn rows_differ(ends: Ends, at: u32, row: &Assignment, rows: &[u32; ROWS]) -> bool
    requires few { length row.now.nodes ≤ 24 }
    requires at { at < 64 }
    requires inside { AreInside row.now ends }
    ensures { result ≡ ends_apart (place_row row.now rows.now at) ends }
{
    let at = at as usize;
    rows[64 * ends.one as usize + at] != rows[64 * ends.other as usize + at]
        || rows[64 * ends.first as usize + at] != rows[64 * ends.second as usize + at]
}

// The row to which the first relationship of a list leads.
#[inline(always)]
fn first_listed(graph: &Graph, table: u32, direction: Direction, row: u32) -> Option<u32>
    requires within { table < length graph.now.catalog.rels }
    requires row { row < near_rows graph.now table direction }
    requires listed { is_listed graph.now table direction ≡ true }
    ensures found { result ≡ slice_get (neighbours graph.now table direction row) 0 }
    ensures ends { IfSome result (λ other. other < near_rows graph.now table (opposite direction)) }
    ensures few { length (neighbours graph.now table direction row) < 2 ^ 32 }
{
    graph.list(table, direction, row).get(0).copied()
}
