//! The place of a relationship among those that are followed from a row.
ghost use Rattle.std.specs.Prelude.{◌≡◌, ◌+◌, ◌<◌, ◌≤◌, ◌^◌, length, slice_get, slice_index, true};
ghost use Rattle.std.specs.Prelude.{None, Some};
ghost use Rattle.gq_plan.specs.Rows.{rel_table};
ghost use Rattle.gq_sift.specs.steps.Differing.{IsPlaceOf};
ghost use Rattle.gq_sift.specs.steps.Parts.{IsPart, numbers_of, part_from};
ghost use Rattle.gq_steps.specs.Follows.{CanFollow};
ghost use Rattle.gq_steps.specs.Moves.{run_of};
ghost use Rattle.gq_store.specs.Neighbours.{neighbours};

use gq_base::Direction;
use gq_plan::{Assignment, Follow};
use gq_steps::PlanRun;
use gq_store::Graph;

/// A part of the relationships of a table that are followed from a row, from one place on up to
/// another.
#[derive(Clone, Copy)]
pub(crate) struct ListPart {
    pub(crate) table: u32,
    pub(crate) direction: Direction,
    pub(crate) row: u32,
    pub(crate) low: u32,
    pub(crate) high: u32,
}

/// So many places, from one on, of the list that is followed from what an assignment has.
pub(crate) fn part_from(
    plan_run: &PlanRun<'_>,
    follow: Follow,
    first: u32,
    count: u32,
    row: &Assignment,
) -> ListPart
    requires can { CanFollow plan_run.now.graph.now plan_run.now.typed.now row.now follow }
    requires fits { first + count < 2 ^ 32 }
    requires inside { let table = rel_table plan_run.now.typed.now follow.rel in first + count
        ≤ length (neighbours plan_run.now.graph.now table follow.direction
        (slice_index row.now.nodes follow.from)) }
    ensures is { result ≡ part_from (run_of plan_run.now) follow row.now first count }
    ensures part { IsPart plan_run.now.graph.now result }
{
    ListPart {
        table: plan_run.typed.rels.as_slice()[follow.rel as usize].table,
        direction: follow.direction,
        row: row.nodes.as_slice()[follow.from as usize],
        low: first,
        high: first + count,
    }
}

/// The place of the relationship with a load number, if it stands in a part of a list. Load numbers
/// ascend in a list: it is in no part but the one between whose ends its number is, and there each
/// step halves the part.
pub(crate) fn place_of_number(graph: &Graph, part: ListPart, number: u32) -> Option<u32>
    requires { IsPart graph.now part }
    ensures { IsPlaceOf (numbers_of graph.now part) part.low part.high number result }
{
    if is_outside(graph, part, number) {
        return None;
    }
    let mut low = part.low;
    let mut high = part.high;
    while low < high {
        let middle = low + (high - low) / 2;
        let found = number_at(graph, part, middle);
        if found == number {
            return Some(middle);
        }
        if found < number {
            low = middle + 1;
        } else {
            high = middle;
        }
    }
    None
}

// Whether a load number is seen by the ends of a part of a list to stand in no place of it.
fn is_outside(graph: &Graph, part: ListPart, number: u32) -> bool
    requires { IsPart graph.now part }
    ensures { result ≡ true →
        IsPlaceOf (numbers_of graph.now part) part.low part.high number None }
{
    if part.low >= part.high {
        return true;
    }
    let first = number_at(graph, part, part.low);
    if number < first {
        return true;
    }
    let last = number_at(graph, part, part.high - 1);
    if last < number {
        return true;
    }
    false
}

// The load number of the relationship at a place of a list.
fn number_at(graph: &Graph, part: ListPart, position: u32) -> u32
    requires part { IsPart graph.now part }
    requires position { position < part.high }
    ensures { slice_get (numbers_of graph.now part) position ≡ Some result }
{
    let place = graph.edge_place(part.table, part.direction, part.row, position);
    graph.edge_number(part.table, place)
}
