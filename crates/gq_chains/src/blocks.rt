//! Chains that 64 places go along together: what a step does is looked up once for all of them.
ghost use Rattle.std.specs.Prelude.{◌≡◌, ◌+◌, ◌*◌, ◌<◌, ◌≤◌, ◌⊎◌, ◌^◌, ◌&&◌, ℕ, length, slice_index};
ghost use Rattle.std.specs.Prelude.{IfSome, None, Some, false, true};
ghost use Rattle.gq_bits.specs.Places.{is_marked};
ghost use Rattle.gq_chains.specs.Among.{IsAmong};
ghost use Rattle.gq_plan.specs.declared.follow.Follow.{Follow};
ghost use Rattle.gq_chains.specs.declared.chain.Beginning.TheVariants as Begin;
ghost use Rattle.gq_chains.specs.steps.Blocks.{IsPut, IsWalked, place_row};
ghost use Rattle.gq_chains.specs.steps.Chains.{CanScan, HasBegun, IsChain};
ghost use Rattle.gq_chains.specs.steps.Ends.{HasPair, ends_differ};
ghost use Rattle.gq_steps.specs.Follows.{CanFollow};
ghost use Rattle.gq_steps.specs.Keeps.{IsRange, IsSifted, makes_one};
ghost use Rattle.gq_steps.specs.Levels.{known, step_at};
ghost use Rattle.gq_steps.specs.Moves.{IsHeld, IsRun, run_of, steps_in};
ghost use Rattle.gq_steps.specs.Reaching.{Reaches};
ghost use Rattle.gq_steps.specs.Tests.{follow_of, pair_of, test_of};

use crate::asked::{follow_at, pair_at, test_at};
use crate::block_steps::{part_block, reach_block};
use crate::chain::Beginning;
use gq_bits::{Marks, VECTOR};
use gq_plan::{Assignment, Follow};
use gq_steps::{GroupSteps, PlanRun};

/// The rows of 64 places at each of 24 node variables, the most that there are.
pub(crate) const ROWS: usize = 1536;

// How often 64 places are a piece.
const BLOCKS: u32 = VECTOR / 64;

/// Marks the places of a part of a chain's list that all its steps keep, 64 after 64, where it scans a
/// node variable, none of its steps is a condition, and enough places are marked. Else the answer is
/// false.
pub(crate) fn sift_together(
    plan_run: &PlanRun<'_>,
    group: GroupSteps,
    beginning: Beginning,
    first: u32,
    count: u32,
    row: &Assignment,
    marks: &mut Marks,
) -> bool
    requires run { IsRun (run_of plan_run.now) }
    requires steps { IsRange (run_of plan_run.now) group }
    requires chain { IsChain (run_of plan_run.now) group beginning }
    requires held { IsHeld (run_of plan_run.now) row.now (known (run_of plan_run.now) group.first) }
    requires count { count ≤ VECTOR }
    requires fits { first + count < 2 ^ 32 }
    requires among { IsAmong (run_of plan_run.now) group first count row.now marks.old }
    ensures told { result ≡ true →
        IsSifted (run_of plan_run.now) group first count row.now row.now marks.new }
    ensures same { result ≡ false → marks.new ≡ marks.old }
{
    if marks.count() < count / 8 || !goes_by_blocks(plan_run, group) {
        return false;
    }
    match beginning {
        Beginning::Rows(node) => {
            sift_blocks(plan_run, group, node, first, count, row, marks);
            true
        }
        Beginning::List(_follow) => false,
    }
}

// Whether no step of a chain is a condition, so that 64 places can go along it together.
fn goes_by_blocks(plan_run: &PlanRun<'_>, group: GroupSteps) -> bool
    requires { IsRange (run_of plan_run.now) group }
    ensures { result ≡ true → (d : ℕ) → group.first < d → d < group.end →
        test_of (step_at (run_of plan_run.now) d) ≡ None }
{
    for depth in group.first + 1..group.end {
        if test_at(plan_run, depth).is_some() {
            return false;
        }
    }
    true
}

// Marks those places, and no others.
fn sift_blocks(
    plan_run: &PlanRun<'_>,
    group: GroupSteps,
    node: u32,
    first: u32,
    count: u32,
    row: &Assignment,
    marks: &mut Marks,
)
    requires run { IsRun (run_of plan_run.now) }
    requires steps { IsRange (run_of plan_run.now) group }
    requires chain { IsChain (run_of plan_run.now) group (Begin.Rows node) }
    requires tests { (d : ℕ) → group.first < d → d < group.end →
        test_of (step_at (run_of plan_run.now) d) ≡ None }
    requires held { IsHeld (run_of plan_run.now) row.now (known (run_of plan_run.now) group.first) }
    requires count { count ≤ VECTOR }
    requires fits { first + count < 2 ^ 32 }
    requires among { IsAmong (run_of plan_run.now) group first count row.now marks.old }
    ensures { IsSifted (run_of plan_run.now) group first count row.now row.now marks.new }
{
    for block in 0..BLOCKS {
        if has_mark(marks, 64 * block) {
            sift_block(plan_run, group, node, first, 64 * block, row, marks);
        }
    }
}

/// Whether one of 64 places is marked.
pub(crate) fn has_mark(marks: &Marks, offset: u32) -> bool
    requires { offset + 64 ≤ VECTOR }
    ensures none { result ≡ false → (j : ℕ) → offset ≤ j → j < offset + 64 →
        is_marked marks.now j ≡ false }
    ensures one { result ≡ true → (j : ℕ) × (j < 64) × (is_marked marks.now (offset + j) ≡ true) }
{
    match marks.next_from(offset) {
        None => false,
        Some(place) => place < offset + 64,
    }
}

// Of the marked ones of 64 places, from one on, keeps those of which all steps of a chain make
// something.
fn sift_block(
    plan_run: &PlanRun<'_>,
    group: GroupSteps,
    node: u32,
    first: u32,
    offset: u32,
    row: &Assignment,
    marks: &mut Marks,
)
    requires run { IsRun (run_of plan_run.now) }
    requires steps { IsRange (run_of plan_run.now) group }
    requires chain { IsChain (run_of plan_run.now) group (Begin.Rows node) }
    requires tests { (d : ℕ) → group.first < d → d < group.end →
        test_of (step_at (run_of plan_run.now) d) ≡ None }
    requires held { IsHeld (run_of plan_run.now) row.now (known (run_of plan_run.now) group.first) }
    requires places { offset + 64 ≤ VECTOR }
    requires fits { (j : ℕ) → j < 64 → is_marked marks.old (offset + j) ≡ true →
        first + (offset + j) < 2 ^ 32 }
    ensures kept { (j : ℕ) → j < 64 → is_marked marks.new (offset + j)
        ≡ (is_marked marks.old (offset + j)
        && makes_one (run_of plan_run.now) group (first + offset + j) row.now) }
    ensures outside { (k : ℕ) → (k < offset) ⊎ (offset + 64 ≤ k) →
        is_marked marks.new k ≡ is_marked marks.old k }
    ensures whole { length marks.new ≡ VECTOR }
{
    let mut rows = [0; ROWS];
    spread(row, &mut rows);
    begin_block(plan_run, node, first, offset, row, &mut rows, marks);
    for depth in group.first + 1..group.end {
        step_block(plan_run, depth, offset, row, &mut rows, marks);
    }
    let _whole = marks.word(0);
}

// Writes the rows of an assignment at each place.
fn spread(row: &Assignment, rows: &mut [u32; ROWS])
    requires few { length row.now.nodes ≤ 24 }
    ensures { (j : ℕ) → j < 64 → place_row row.now rows.new j ≡ row.now }
{
    for node in 0..row.nodes.len() {
        spread_node(node, row.nodes.as_slice()[node], rows);
    }
}

// Writes a row of a node variable at each place.
fn spread_node(node: usize, value: u32, rows: &mut [u32; ROWS])
    requires node { node < 24 }
    ensures written { (j : ℕ) → j < 64 → slice_index rows.new (64 * node + j) ≡ value }
    ensures others { (i : ℕ) → i < 64 * node → slice_index rows.new i ≡ slice_index rows.old i }
{
    for at in 0..64 {
        rows[64 * node + at] = value;
    }
}

// Writes the row of a node variable at each marked place, and keeps those at which there is one.
fn begin_block(
    plan_run: &PlanRun<'_>,
    node: u32,
    first: u32,
    offset: u32,
    row: &Assignment,
    rows: &mut [u32; ROWS],
    marks: &mut Marks,
)
    requires run { IsRun (run_of plan_run.now) }
    requires can { CanScan (run_of plan_run.now) row.now node }
    requires few { length row.now.nodes ≤ 24 }
    requires places { offset + 64 ≤ VECTOR }
    requires fits { (j : ℕ) → j < 64 → is_marked marks.old (offset + j) ≡ true →
        first + (offset + j) < 2 ^ 32 }
    ensures { IsWalked (λ j old told new. HasBegun (run_of plan_run.now) (Begin.Rows node)
        (first + offset + j) old told new) row.now offset 64 rows.old rows.new marks.old marks.new }
{
    for at in 0..64 {
        if marks.get(offset + at) {
            begin_at(
                plan_run,
                node,
                first + (offset + at),
                offset,
                at,
                row,
                rows,
                marks,
            );
        }
    }
}

// The same at one place.
#[inline(always)]
fn begin_at(
    plan_run: &PlanRun<'_>,
    node: u32,
    place: u32,
    offset: u32,
    at: u32,
    row: &Assignment,
    rows: &mut [u32; ROWS],
    marks: &mut Marks,
)
    requires run { IsRun (run_of plan_run.now) }
    requires can { CanScan (run_of plan_run.now) row.now node }
    requires few { length row.now.nodes ≤ 24 }
    requires places { offset + 64 ≤ VECTOR }
    requires at { at < 64 }
    requires on { is_marked marks.old (offset + at) ≡ true }
    ensures { IsPut (λ j old told new. HasBegun (run_of plan_run.now) (Begin.Rows node)
        place old told new) row.now offset at rows.old rows.new marks.old marks.new }
{
    if place < plan_run.row_count(node) {
        rows[64 * node as usize + at as usize] = place;
    } else {
        marks.set(offset + at, false);
    }
}

// What the step at a depth of a chain makes of the marked places: it writes the rows to which it
// leads, or says which of them pass.
fn step_block(
    plan_run: &PlanRun<'_>,
    depth: usize,
    offset: u32,
    row: &Assignment,
    rows: &mut [u32; ROWS],
    marks: &mut Marks,
)
    requires depth { depth < length (steps_in plan_run.now) }
    requires few { length row.now.nodes ≤ 24 }
    requires places { offset + 64 ≤ VECTOR }
    requires can { (f : Follow) → follow_of (step_at (run_of plan_run.now) depth) ≡ Some f →
        (j : ℕ) → j < 64 → is_marked marks.old (offset + j) ≡ true → CanFollow
        plan_run.now.graph.now plan_run.now.typed.now (place_row row.now rows.old j) f }
    requires ends { (p : ℕ) → pair_of (step_at (run_of plan_run.now) depth) ≡ Some p →
        HasPair plan_run.now.typed.now row.now p }
    ensures follows { (f : Follow) → follow_of (step_at (run_of plan_run.now) depth) ≡ Some f →
        IsWalked (λ j old told new. Reaches plan_run.now.graph.now plan_run.now.typed.now f 0 old
        told new) row.now offset 64 rows.old rows.new marks.old marks.new }
    ensures pairs { (p : ℕ) → pair_of (step_at (run_of plan_run.now) depth) ≡ Some p →
        IsWalked (λ j old told new. (new ≡ old) × (told ≡ ends_differ plan_run.now.typed.now old p))
        row.now offset 64 rows.old rows.new marks.old marks.new }
{
    match follow_at(plan_run, depth) {
        Some(follow) => reach_block(plan_run, follow, offset, row, rows, marks),
        None => match pair_at(plan_run, depth) {
            Some(pair) => part_block(plan_run, pair, offset, row, rows, marks),
            None => {}
        },
    }
}
