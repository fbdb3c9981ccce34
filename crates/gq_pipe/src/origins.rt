//! What the cells of a column are read from, looked up once for all its positions.
ghost use Rattle.std.specs.Prelude.{◌≡◌, ◌<◌, ◌≤◌, ℕ, length, slice_get, slice_index};
ghost use Rattle.std.specs.Option.{option_copied};
ghost use Rattle.gq_group.specs.Chunks.{IsRow, row_in};
ghost use Rattle.gq_group.specs.Pieces.{items_of};
ghost use Rattle.gq_group.specs.declared.home.NodeHome.TheVariants.{Column};
ghost use Rattle.gq_plan.specs.Rows.{rel_table};
ghost use Rattle.gq_plan.specs.Soundness.{IsSound};
ghost use Rattle.gq_pipe.specs.steps.Cells.{HasMatches, HasSource, cell_seen, led};
ghost use Rattle.gq_homes.specs.steps.Housing.{build_in};
ghost use Rattle.gq_pipe.specs.steps.Cells.{near_seen};
ghost use Rattle.gq_homes.specs.Homes.{CanFill, IsFilling, filling_at, node_home};
ghost use Rattle.gq_steps.specs.Levels.{known};
ghost use Rattle.gq_steps.specs.Moves.{builds_in, run_of, IsRun};
ghost use Rattle.gq_pipe.specs.steps.Origins.{CanKeepAt, CanLead, CanRead, IsNear};
ghost use Rattle.gq_pipe.specs.steps.Origins.{kept_at, near_at, place_in, row_from};
ghost use Rattle.gq_homes.specs.declared.homes.Filling.TheVariants as filling;
ghost use Rattle.gq_pipe.specs.declared.origins.Origin.TheVariants as origin;
ghost use Rattle.gq_pool.specs.Pool.{Pool, IsOut, cell_at};

use crate::lists::Lists;
use gq_base::Direction;
use gq_bits::VECTOR;
use gq_group::{Group, Homes, NodeHome, Piece};
use gq_homes::{Filling, Housing, Keeping, Leading};
use gq_join::Sealed;
use gq_plan::Assignment;
use gq_pool::{Slot, VectorPool};
use gq_steps::PlanRun;
use gq_store::Graph;

/// What the cells of a column are read from.
#[derive(Clone, Copy)]
pub(crate) enum Origin<'s, 'g> {
    /// The single relationships of rows.
    Led(LedRows<'s, 'g>),
    /// The rows of a build.
    Kept(KeptRows<'g>),
}

/// The rows to which the single relationships of a table lead.
#[derive(Clone, Copy)]
pub(crate) struct LedRows<'s, 'g> {
    pub(crate) graph: &'g Graph,
    pub(crate) table: u32,
    pub(crate) direction: Direction,
    // From so many rows relationships are followed.
    pub(crate) count: u32,
    pub(crate) near: Near<'s, 'g>,
}

/// The rows from which relationships are followed.
#[derive(Clone, Copy)]
pub(crate) enum Near<'s, 'g> {
    /// One row at all positions.
    Row(u32),
    /// The items of a group.
    Items(Piece<'g>),
    /// The cells of an earlier column.
    Column(&'s Slot),
}

/// What a build has at a place of those of its rows that a group has.
#[derive(Clone, Copy)]
pub(crate) struct KeptRows<'g> {
    pub(crate) build: Option<&'g Sealed>,
    pub(crate) place: usize,
    pub(crate) rows: Piece<'g>,
}

/// What the cells of the column of a number are read from.
pub(crate) fn origin_of<'s, 'g>(
    lists: &Lists<'g>,
    housing: &Housing,
    groups: &[Group<'g>],
    number: usize,
    slots: &'s [Slot],
) -> Origin<'s, 'g>
    requires run { IsRun (run_of lists.now.plan_run) }
    requires row { length lists.now.row.nodes ≡ length lists.now.plan_run.typed.now.nodes }
    requires groups { length groups.now ≡ length lists.now.groups.items }
    requires number { number < length housing.now.fillings.items }
    requires filling { let c = run_of lists.now.plan_run in IsFilling c lists.now.groups.items
        (known c (length c.steps)) housing.now.homes number
        (filling_at housing.now.fillings.items number) }
    requires matches { HasMatches (run_of lists.now.plan_run) groups.now
        (filling_at housing.now.fillings.items number) }
    requires room { number ≤ length slots.now }
    ensures row { let f = filling_at housing.now.fillings.items number in
        (q : Pool) (p : ℕ) → row_from result q p ≡ cell_seen (run_of lists.now.plan_run)
        lists.now.row groups.now housing.now.homes q slots.now f p }
    ensures can { let f = filling_at housing.now.fillings.items number in
        (q : Pool) (written p : ℕ) → HasSource housing.now.homes q slots.now written f p →
        CanRead result q written p }
{
    match housing.fillings[number] {
        Filling::Led(leading) => {
            let near = near_of(&lists.row, &housing.homes, groups, leading, slots);
            Origin::Led(led_rows(&lists.plan_run, leading, near))
        }
        Filling::Kept(keeping) => {
            let rows = groups[keeping.group as usize].piece();
            Origin::Kept(kept_rows(&lists.plan_run, keeping, rows))
        }
    }
}

// The rows from which a column follows relationships.
fn near_of<'s, 'g>(
    row: &Assignment,
    homes: &Homes,
    groups: &[Group<'g>],
    leading: Leading,
    slots: &'s [Slot],
) -> Near<'s, 'g>
    requires from { leading.from < length row.now.nodes }
    requires group { leading.group < length groups.now }
    requires columns { (j m : ℕ) → node_home homes.now leading.from ≡ Column j m →
        m < length slots.now }
    ensures row { (q : Pool) (p : ℕ) → near_at result q p ≡ near_seen row.now groups.now q slots.now
        leading.group leading.from p (node_home homes.now leading.from) }
    ensures can { (q : Pool) (written p : ℕ) → HasSource homes.now q slots.now written
        (filling.Led leading) p → IsNear result q written p }
{
    let stands = Near::Row(row.nodes.as_slice()[leading.from as usize]);
    match home_of(homes, leading.from) {
        NodeHome::Nowhere => stands,
        NodeHome::Item { group } => {
            if group == leading.group {
                Near::Items(groups[group as usize].piece())
            } else {
                stands
            }
        }
        NodeHome::Column { group, column } => {
            if group == leading.group {
                Near::Column(&slots[column as usize])
            } else {
                stands
            }
        }
    }
}

// The home of a node variable.
fn home_of(homes: &Homes, variable: u32) -> NodeHome
    ensures { result ≡ node_home homes.now variable }
{
    match homes.nodes.get(variable as usize) {
        None => NodeHome::Nowhere,
        Some(home) => *home,
    }
}

// The rows to which single relationships lead from such rows.
fn led_rows<'s, 'g>(plan_run: &PlanRun<'g>, leading: Leading, near: Near<'s, 'g>) -> LedRows<'s, 'g>
    requires sound { IsSound plan_run.now.graph.now.catalog plan_run.now.typed.now }
    requires fill { CanFill (run_of plan_run.now) leading }
    ensures near { result.near ≡ near.entry }
    ensures led { (q : Pool) (p : ℕ) → row_from (origin.Led result) q p
        ≡ led (run_of plan_run.now) leading (near_at near.entry q p) }
    ensures can { CanLead result }
{
    LedRows {
        graph: plan_run.graph,
        table: table(plan_run, leading.rel),
        direction: leading.direction,
        count: plan_run.row_count(leading.from),
        near,
    }
}

// What the build of the step of a column keeps of a node variable, in some of its rows.
fn kept_rows<'g>(plan_run: &PlanRun<'g>, keeping: Keeping, rows: Piece<'g>) -> KeptRows<'g>
    requires { keeping.depth < length (builds_in plan_run.now) }
    ensures rows { result.rows ≡ rows.entry }
    ensures build { option_copied result.build ≡ build_in (run_of plan_run.now) keeping.depth }
    ensures place { result.place
        ≡ place_in (build_in (run_of plan_run.now) keeping.depth) keeping.node }
{
    let build = plan_run.build_at(keeping.depth);
    let place = match build {
        None => 0,
        Some(build) => build.node_place(keeping.node),
    };
    KeptRows { build, place, rows }
}

// The table of a relationship variable.
fn table(plan_run: &PlanRun<'_>, rel: u32) -> u32
    requires { rel < length plan_run.now.typed.now.rels }
    ensures { result ≡ rel_table plan_run.now.typed.now rel }
{
    plan_run.typed.rels.as_slice()[rel as usize].table
}

impl Origin<'_, '_> {
    /// The row at a position.
    pub(crate) fn row(&self, pool: &VectorPool, position: u32) -> u32
        requires position { position < VECTOR }
        requires can { (written : ℕ) × CanRead self.now pool.now written position }
        ensures { result ≡ row_from self.now pool.now position }
    {
        match self {
            Origin::Led(rows) => rows.row(pool, position),
            Origin::Kept(rows) => rows.row(position),
        }
    }
}

impl LedRows<'_, '_> {
    // The row to which the single relationship at a position leads, 0 where there is none.
    fn row(&self, pool: &VectorPool, position: u32) -> u32
        requires position { position < VECTOR }
        requires can { CanLead self.now }
        requires near { (written : ℕ) × IsNear self.now.near pool.now written position }
        ensures { result ≡ row_from (origin.Led self.now) pool.now position }
    {
        let near = self.near.row(pool, position);
        if near >= self.count {
            return 0;
        }
        match self.graph.single(self.table, self.direction, near) {
            None => 0,
            Some(row) => row,
        }
    }
}

impl Near<'_, '_> {
    // The row at a position.
    fn row(&self, pool: &VectorPool, position: u32) -> u32
        requires position { position < VECTOR }
        requires can { (written : ℕ) × IsNear self.now pool.now written position }
        ensures { result ≡ near_at self.now pool.now position }
    {
        match self {
            Near::Row(row) => *row,
            Near::Items(piece) => item_at(*piece, position),
            Near::Column(slot) => row_at(pool, slot, position),
        }
    }
}

impl KeptRows<'_> {
    // What the build has in the row at a position, 0 where there is none.
    fn row(&self, position: u32) -> u32
        requires { CanKeepAt (option_copied self.now.build)
            (slice_get (items_of self.now.rows) position) self.now.place }
        ensures { result ≡ kept_at (option_copied self.now.build)
            (slice_get (items_of self.now.rows) position) self.now.place }
    {
        kept_row(self.build, item_of(self.rows, position), self.place)
    }
}

// What a build has at a place of a row, 0 where there is none.
fn kept_row(build: Option<&Sealed>, row: Option<u32>, place: usize) -> u32
    requires { CanKeepAt (option_copied build) row place }
    ensures { result ≡ kept_at (option_copied build.entry) row place }
{
    match (build, row) {
        (Some(build), Some(row)) => build.node_at(row, place),
        _ => 0,
    }
}

// The item of a piece at a position, 0 past its end.
fn item_at(piece: Piece<'_>, position: u32) -> u32
    ensures { result ≡ slice_index (items_of piece.entry) position }
{
    match item_of(piece, position) {
        None => 0,
        Some(item) => item,
    }
}

// The item of a piece at a position, if it has one there.
fn item_of(piece: Piece<'_>, position: u32) -> Option<u32>
    ensures { result ≡ slice_get (items_of piece.entry) position }
{
    match piece {
        Piece::Span { low, high } => {
            if position < high.saturating_sub(low) {
                Some(low + position)
            } else {
                None
            }
        }
        Piece::List { ids, first: _ } => number_at(ids, position),
        Piece::Matches { rows, first: _ } => number_at(rows, position),
    }
}

fn number_at(numbers: &[u32], position: u32) -> Option<u32>
    ensures { result ≡ slice_get numbers.now position }
{
    numbers.get(position as usize).copied()
}

// The row in a cell of a slot.
fn row_at(pool: &VectorPool, slot: &Slot, position: u32) -> u32
    requires out { IsOut pool.now slot.now }
    requires position { position < VECTOR }
    requires row { IsRow (cell_at pool.now slot.now position) }
    ensures { result ≡ row_in (cell_at pool.now slot.now position) }
{
    let cells = pool.cells(slot);
    cells[position as usize] as u32
}
