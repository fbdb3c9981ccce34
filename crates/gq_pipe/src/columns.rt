//! The cells of the columns of the chunk that stands, filled where their groups are marked.
ghost use Rattle.std.specs.Prelude.{◌≡◌, ◌≢◌, ◌≤◌, ◌<◌, ◌+◌, ◌*◌, ◌/◌, ℕ, length};
ghost use Rattle.std.specs.Int.{bit_at};
ghost use Rattle.gq_pool.specs.Pool.{IsOut, cell_at, cells_of};
ghost use Rattle.gq_pipe.specs.Serving.{HasCell, HasCells};
ghost use Rattle.gq_pool.specs.Slots.{Holds};
ghost use Rattle.gq_pipe.specs.steps.Cells.{HasMatches, filled};
ghost use Rattle.gq_homes.specs.Homes.{IsColumnOf, IsFilling, column_group, filling_at, node_home};
ghost use Rattle.gq_steps.specs.Levels.{known};
ghost use Rattle.gq_steps.specs.Moves.{run_of, IsRun};
ghost use Rattle.gq_pipe.specs.steps.Origins.{CanRead, row_from};
ghost use Rattle.gq_group.specs.declared.home.NodeHome.TheVariants.{Column};

use crate::lists::Lists;
use crate::origins::{Origin, origin_of};
use gq_bits::VECTOR;
use gq_group::Group;
use gq_homes::{Filling, Housing};
use gq_pool::{Slot, VectorPool};

/// Fills the columns of the groups that stand, each in the slot of its number. It takes no memory.
pub(crate) fn fill_columns(
    lists: &Lists<'_>,
    housing: &Housing,
    groups: &[Group<'_>],
    slots: &[Slot],
    pool: &mut VectorPool,
)
    requires run { IsRun (run_of lists.now.plan_run) }
    requires row { length lists.now.row.nodes ≡ length lists.now.plan_run.typed.now.nodes }
    requires groups { length groups.now ≡ length lists.now.groups.items }
    requires fillings { let c = run_of lists.now.plan_run in (m : ℕ) →
        m < length housing.now.fillings.items → IsFilling c lists.now.groups.items
        (known c (length c.steps)) housing.now.homes m (filling_at housing.now.fillings.items m) }
    requires columns { (v j m : ℕ) → node_home housing.now.homes v ≡ Column j m →
        IsColumnOf housing.now.fillings.items j m }
    requires matches { (m : ℕ) → m < length housing.now.fillings.items → HasMatches
        (run_of lists.now.plan_run) groups.now (filling_at housing.now.fillings.items m) }
    requires room { length housing.now.fillings.items ≤ length slots.now }
    requires held { Holds pool.old slots.now }
    ensures held { Holds pool.new slots.now }
    ensures cells { HasCells pool.new slots.now (filled (run_of lists.now.plan_run) lists.now.row
        groups.now housing.now.homes housing.now.fillings.items
        (length housing.now.fillings.items)) }
    ensures same_out { pool.new.out ≡ pool.old.out }
{
    for number in 0..housing.fillings.len() {
        fill_column(lists, housing, groups, number, slots, pool);
    }
}

// Fills one more column.
fn fill_column(
    lists: &Lists<'_>,
    housing: &Housing,
    groups: &[Group<'_>],
    number: usize,
    slots: &[Slot],
    pool: &mut VectorPool,
)
    requires run { IsRun (run_of lists.now.plan_run) }
    requires row { length lists.now.row.nodes ≡ length lists.now.plan_run.typed.now.nodes }
    requires groups { length groups.now ≡ length lists.now.groups.items }
    requires number { number < length housing.now.fillings.items }
    requires filling { let c = run_of lists.now.plan_run in IsFilling c lists.now.groups.items
        (known c (length c.steps)) housing.now.homes number
        (filling_at housing.now.fillings.items number) }
    requires columns { (v j m : ℕ) → node_home housing.now.homes v ≡ Column j m →
        IsColumnOf housing.now.fillings.items j m }
    requires matches { HasMatches (run_of lists.now.plan_run) groups.now
        (filling_at housing.now.fillings.items number) }
    requires room { number < length slots.now }
    requires held { Holds pool.old slots.now }
    requires cells { HasCells pool.old slots.now (filled (run_of lists.now.plan_run) lists.now.row
        groups.now housing.now.homes housing.now.fillings.items number) }
    ensures held { Holds pool.new slots.now }
    ensures cells { HasCells pool.new slots.now (filled (run_of lists.now.plan_run) lists.now.row
        groups.now housing.now.homes housing.now.fillings.items (number + 1)) }
    ensures same_out { pool.new.out ≡ pool.old.out }
{
    let origin = origin_of(lists, housing, groups, number, slots);
    let group = column_group(housing.fillings[number]);
    let marks = groups[group as usize].marks();
    for index in 0..VECTOR / 64 {
        fill_word(&origin, &slots[number], index, marks.word(index), pool);
    }
}

// Fills the cells of a column at those of the 64 positions from `64 * index` on whose bit in `word`
// is set.
fn fill_word(origin: &Origin<'_, '_>, slot: &Slot, index: u32, word: u64, pool: &mut VectorPool)
    requires index { 64 * index < VECTOR }
    requires out { IsOut pool.old slot.now }
    requires can { (i : ℕ) → i < 64 → bit_at word i ≡ 1 →
        CanRead origin.now pool.old slot.now (64 * index + i) }
    ensures cells { (i : ℕ) → i < 64 → bit_at word i ≡ 1 → HasCell pool.new slot.now
        (64 * index + i) (row_from origin.now pool.old (64 * index + i)) }
    ensures other_cells { (p : ℕ) → p / 64 ≢ index →
        cell_at pool.new slot.now p ≡ cell_at pool.old slot.now p }
    ensures other_slots { (s : ℕ) → s ≢ slot.now → cells_of pool.new s ≡ cells_of pool.old s }
    ensures same_out { pool.new.out ≡ pool.old.out }
    ensures still_out { (s : ℕ) → IsOut pool.old s → IsOut pool.new s }
{
    let mut rest = word;
    while rest != 0 {
        let place = rest.trailing_zeros();
        let position = 64 * index + place;
        let row = origin.row(pool, position);
        put_row(pool, slot, position, row);
        rest &= !(1 << place);
    }
}

// The group of a column.
fn column_group(filling: Filling) -> u32
    ensures { result ≡ column_group filling }
{
    match filling {
        Filling::Led(leading) => leading.group,
        Filling::Kept(keeping) => keeping.group,
    }
}

// Writes a row into a cell of a slot.
fn put_row(pool: &mut VectorPool, slot: &Slot, position: u32, row: u32)
    requires out { IsOut pool.old slot.now }
    requires position { position < VECTOR }
    ensures put { HasCell pool.new slot.now position row }
    ensures other_cells { (p : ℕ) → p ≢ position →
        cell_at pool.new slot.now p ≡ cell_at pool.old slot.now p }
    ensures other_slots { (s : ℕ) → s ≢ slot.now → cells_of pool.new s ≡ cells_of pool.old s }
    ensures same_out { pool.new.out ≡ pool.old.out }
    ensures still_out { (s : ℕ) → IsOut pool.old s → IsOut pool.new s }
{
    let cells = pool.cells_mut(slot);
    cells[position as usize] = i64::from(row);
}
