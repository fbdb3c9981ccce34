//! The rows by which the trails of a query continue its rows, one after another.
ghost use Rattle.std.specs.Prelude.{◌≡◌, ◌≤◌, ◌<◌, ◌^◌, ◌∷◌, [], false, length, true, All, IfOk};
ghost use Rattle.gq_drain.specs.Prepared.{CanWalk};
ghost use Rattle.gq_drain.specs.steps.Walking.{AreTrailsOf, IsWalking, left_of_all};
ghost use Rattle.gq_plan.specs.Marked.{Marked};
ghost use Rattle.gq_plan.specs.Meaning as meaning;

use crate::continues::Continues;
use crate::copied::copy_row;
use crate::late::judge_row;
use crate::prepared::Prepared;
use gq_base::Memory;
use gq_eval::Verdict;
use gq_expr::Fault;
use gq_group::ChunkRow;
use gq_outer::WideRow;
use gq_plan::Typed;
use gq_trails::TrailRows;
use std::alloc::Global;

/// A row of all variables of a query, the trails that continue it, and the fault that marks the row
/// which they reached.
#[derive(Drop)]
pub(crate) struct Walking<'w, 'q> {
    prepared: &'w Prepared<'q>,
    typed: &'w Typed,
    row: WideRow,
    trails: TrailRows<'w>,
    fault: Option<Fault>,
}

impl<'w, 'q> Walking<'w, 'q> {
    /// A row of which no variable has anything yet, and the trails, of which none is owed: each row
    /// counts once where DISTINCT keeps one of those that are the same.
    pub(crate) fn new(
        alloc: Global,
        prepared: &'w Prepared<'q>,
        typed: &'w Typed,
    ) -> Result<Walking<'w, 'q>, Memory>
        requires walks { CanWalk prepared.now.bound.now typed.now }
        requires shape_nodes { let b = prepared.now.bound.now in
            prepared.now.shape.nodes ≡ length b.node_names }
        requires shape_rels { let b = prepared.now.bound.now in
            prepared.now.shape.rels ≡ length b.rel_names }
        requires nodes { length typed.now.nodes ≤ length prepared.now.bound.now.node_names }
        requires rels { length typed.now.rels ≤ length prepared.now.bound.now.rel_names }
        requires few_nodes { length prepared.now.bound.now.node_names < 2 ^ 32 }
        requires few_rels { length prepared.now.bound.now.rel_names < 2 ^ 32 }
        ensures ready { IfOk result IsWalking }
        ensures prepared { IfOk result (λ h. h.prepared.now ≡ prepared.now) }
        ensures typed { IfOk result (λ h. h.typed.now ≡ typed.now) }
    {
        let shape = prepared.shape;
        let bound = prepared.bound;
        let row = WideRow::new(alloc, shape.nodes, shape.rels)?;
        let trails = TrailRows::new(
            alloc,
            prepared.graph,
            bound.trails.as_slice(),
            bound.distinct,
            shape.nodes,
            shape.rels,
        )?;
        Ok(Walking {
            prepared,
            typed,
            row,
            trails,
            fault: None,
        })
    }
}

// Goes on to the next row that the trails reach and that is left, and tells the fault that marks
// it.
fn reach_next(
    trails: &mut TrailRows<'_>,
    fault: &mut Option<Fault>,
    prepared: &Prepared<'_>,
    typed: &Typed,
) -> bool
    requires { AreTrailsOf prepared.now.graph.now prepared.now.bound.now trails.old }
    ensures next { let left = left_of_all prepared.now typed.now in
        let row = meaning.row trails.new.reached in
        let here : Marked = record { row = row; mark = fault.new } in
        result ≡ true → left trails.old.owed ≡ here ∷ left trails.new.owed }
    ensures stands { result ≡ true → trails.new.standing ≡ true }
    ensures none { result ≡ false → left_of_all prepared.now typed.now trails.old.owed ≡ [] }
    ensures trails { AreTrailsOf prepared.now.graph.now prepared.now.bound.now trails.new }
{
    'rows: while trails.advance() {
        match judge_row(prepared, typed, trails.row()) {
            Verdict::Dropped => {}
            Verdict::Pass => {
                *fault = None;
                return true;
            }
            Verdict::Fault(found) => {
                *fault = Some(found);
                return true;
            }
        }
    }
    false
}

impl<'w, 'q> Continues for Walking<'w, 'q> {
    ghost use Rattle.gq_drain.specs.steps.Walking.{IsWalking, Reaches, owed_walking};
    ghost use Rattle.gq_drain.specs.steps.Walking.{reached_walking, walked_rows};

    ghost continuation = { λ h. record {
      graph = h.prepared.now.graph.now;
      typed = h.typed.now;
      rows = walked_rows h.prepared.now h.typed.now;
    } };

    ghost ready = { IsWalking };

    ghost owed = { owed_walking };

    ghost reached = { reached_walking };

    ghost stands = { Reaches };

    fn begin(&mut self, row: &ChunkRow<'_, '_, '_, '_, '_>) {
        copy_row(&mut self.row, row, self.typed);
        self.trails.begin(&self.row, self.typed.rels.as_slice());
    }

    fn advance(&mut self) -> bool {
        reach_next(&mut self.trails, &mut self.fault, self.prepared, self.typed)
    }

    fn row(&self) -> &WideRow {
        self.trails.row()
    }

    fn fault(&self) -> Option<Fault> {
        self.fault
    }
}
