//! What the optional clauses of a query make of its rows, one row after another.
ghost use Rattle.std.specs.Prelude.{◌≡◌, ◌≤◌, ◌<◌, ◌^◌, length, IfOk};
ghost use Rattle.gq_drain.specs.steps.Behind.{IsBehind};

use crate::continues::Continues;
use crate::copied::copy_row;
use crate::late::judge_row;
use crate::prepared::Prepared;
use gq_base::Memory;
use gq_eval::Verdict;
use gq_expr::Fault;
use gq_group::ChunkRow;
use gq_optional::OptionalWalk;
use gq_outer::WideRow;
use gq_plan::Typed;
use std::alloc::Global;

/// What is owed of the row that was begun with.
#[derive(Clone, Copy)]
pub(crate) enum Stage {
    /// Nothing: it is dropped.
    Over,
    /// The row itself, which this fault marks.
    Due(Fault),
    /// Nothing more: that row stands.
    Alone(Fault),
    /// The rows that the clauses make of it.
    Walked,
}

/// A row of all variables of a query, and a walk over what the optional clauses make of it.
#[derive(Drop)]
pub(crate) struct Behind<'w, 'q> {
    prepared: &'w Prepared<'q>,
    typed: &'w Typed,
    row: WideRow,
    walk: OptionalWalk<'w>,
    stage: Stage,
}

impl<'w, 'q> Behind<'w, 'q> {
    /// A row of which no variable has anything yet, and a walk that owes nothing.
    pub(crate) fn new(
        alloc: Global,
        prepared: &'w Prepared<'q>,
        typed: &'w Typed,
    ) -> Result<Behind<'w, 'q>, Memory>
        requires shape { prepared.now.optionals.held.shape ≡ prepared.now.shape }
        requires nodes { length typed.now.nodes ≤ prepared.now.optionals.held.shape.nodes }
        requires rels { length typed.now.rels ≤ prepared.now.optionals.held.shape.rels }
        requires few_nodes { prepared.now.optionals.held.shape.nodes < 2 ^ 32 }
        requires few_rels { prepared.now.optionals.held.shape.rels < 2 ^ 32 }
        ensures ready { IfOk result IsBehind }
        ensures prepared { IfOk result (λ h. h.prepared.now ≡ prepared.now) }
        ensures typed { IfOk result (λ h. h.typed.now ≡ typed.now) }
    {
        let shape = prepared.shape;
        let row = WideRow::new(alloc, shape.nodes, shape.rels)?;
        let walk = prepared.optionals.walk(alloc)?;
        Ok(Behind {
            prepared,
            typed,
            row,
            walk,
            stage: Stage::Over,
        })
    }
}

impl<'w, 'q> Continues for Behind<'w, 'q> {
    ghost use Rattle.gq_drain.specs.steps.Behind.{IsBehind, Stands, behind_rows, owed_behind};
    ghost use Rattle.gq_drain.specs.steps.Behind.{reached_behind};

    ghost continuation = { λ h. record {
      graph = h.prepared.now.graph.now;
      typed = h.typed.now;
      rows = behind_rows h.prepared.now h.typed.now;
    } };

    ghost ready = { IsBehind };

    ghost owed = { owed_behind };

    ghost reached = { reached_behind };

    ghost stands = { Stands };

    fn begin(&mut self, row: &ChunkRow<'_, '_, '_, '_, '_>) {
        match judge_row(self.prepared, self.typed, row) {
            Verdict::Dropped => {
                self.stage = Stage::Over;
            }
            Verdict::Pass => {
                copy_row(&mut self.row, row, self.typed);
                self.walk.begin(&self.row);
                self.stage = Stage::Walked;
            }
            Verdict::Fault(fault) => {
                copy_row(&mut self.row, row, self.typed);
                self.stage = Stage::Due(fault);
            }
        }
    }

    fn advance(&mut self) -> bool {
        match self.stage {
            Stage::Over => false,
            Stage::Due(fault) => {
                self.stage = Stage::Alone(fault);
                true
            }
            Stage::Alone(_) => false,
            Stage::Walked => self.walk.advance(),
        }
    }

    fn row(&self) -> &WideRow {
        match self.stage {
            Stage::Walked => self.walk.row(),
            Stage::Over | Stage::Due(_) | Stage::Alone(_) => &self.row,
        }
    }

    fn fault(&self) -> Option<Fault> {
        match self.stage {
            Stage::Over => None,
            Stage::Due(fault) => Some(fault),
            Stage::Alone(fault) => Some(fault),
            Stage::Walked => self.walk.fault(),
        }
    }
}
