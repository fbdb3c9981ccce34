//! How the value of a key is found at the positions of a chunk without being evaluated: as the values
//! of columns are, but it is kept nowhere.
ghost use Rattle.std.specs.Prelude.{◌≡◌, IfOk, IfSome, List, None, Ok, ℕ};
ghost use Rattle.gq_base.specs.Values.{val};
ghost use Rattle.gq_cells.specs.declared.source.Source.{Source as Means};
ghost use Rattle.gq_eval.specs.Asked.{Asked, asked};
ghost use Rattle.gq_expr.specs.Meaning.{meaning};
ghost use Rattle.gq_expr.specs.declared.expr.Expr.{Expr as Key};
ghost use Rattle.gq_group.specs.Chunks.{IsChunk, IsChunkOf, assignment_at};
ghost use Rattle.gq_group.specs.Groups.{AreSelected};
ghost use Rattle.gq_listed.specs.Finding.{IsFinder};
ghost use Rattle.gq_listed.specs.Keys.{FindsKey, FindsSome};
ghost use Rattle.gq_listed.specs.Leads.{IsLed};
ghost use Rattle.gq_listed.specs.Windows.{AreBehind, IsIn};
ghost use Rattle.gq_plan.specs.Assignments.{row_of};
ghost use Rattle.gq_plan.specs.Rows.{assigned};

use crate::finder::{Finder, Found, Lead, Way};
use crate::holding::{has_many, lead_of};
use crate::leads::Spot;
use crate::tables::Tables;
use crate::window::Window;
use gq_base::{Memory, Value};
use gq_cells::{Cells, Source, WINDOW};
use gq_expr::Expr;
use gq_group::{Chunk, Piece};
use gq_plan::{Bound, Typed};
use gq_store::Graph;
use std::alloc::Global;

/// What finds the value of a key, once it was made ready.
#[derive(Drop)]
pub struct KeyFinder<'g> {
    pub cells: Cells<'g>,
    pub finder: Option<Finder>,
}

impl<'g> KeyFinder<'g> {
    /// Nothing is made ready. It takes no memory.
    pub fn new(alloc: Global) -> KeyFinder<'g>
        ensures { result.finder ≡ None }
    {
        KeyFinder {
            cells: Cells::new(alloc),
            finder: None,
        }
    }

    /// Makes what finds the value of a key over a graph ready, for an alternative; where that was
    /// done, it stays.
    pub fn prepare(
        &mut self,
        key: &Expr,
        bound: &Bound,
        typed: &Typed,
        graph: &'g Graph,
    ) -> Result<Finder, Memory>
        requires { FindsKey (asked key.now graph.now) self.old }
        ensures finds { IfOk result
            (IsFinder self.new.cells.sources (asked key.now graph.now)) }
        ensures ready { FindsKey (asked key.now graph.now) self.new }
    {
        match self.finder {
            Some(finder) => return Ok(finder),
            None => {}
        }
        let tables = Tables { bound, typed };
        let null = self.cells.add(Source::Value(Value::Null))?;
        let finder = Finder::new(&mut self.cells, null, key, &tables, graph)?;
        self.finder = Some(finder);
        Ok(finder)
    }

    /// The value of a key at one selected position of each group of a chunk, if it is found without
    /// being evaluated.
    #[inline(always)]
    pub fn value_at(
        &self,
        finder: &Finder,
        graph: &Graph,
        typed: &Typed,
        chunk: &Chunk<'_, '_>,
        positions: &[u32],
    ) -> Option<Value<'g>>
        requires chunk { IsChunkOf graph.now typed.now chunk.now }
        requires selected { AreSelected chunk.now.groups.now positions.now }
        requires led { IsLed graph.now typed.now chunk.now finder.now }
        requires finder { FindsSome graph.now self.now.cells.sources finder.now }
        ensures { let here = assignment_at graph.now typed.now chunk.now positions.now in
            let read = row_of (assigned typed.now here) in
            (key : Key) → IsFinder self.now.cells.sources (asked key graph.now) finder.now
            → IfSome result (λ value. meaning graph.now read key ≡ Ok (val value)) }
    {
        let spot = Spot {
            graph,
            typed,
            chunk,
            positions,
        };
        match spot.find(finder) {
            Found::Number(number) => Some(self.cells.read(finder.source, number)),
            Found::Null | Found::Other => None,
        }
    }

    /// What is known of the positions of the group that decides a key alone, before they are looked
    /// at, where its items are rows that follow one another and the key is an integer.
    pub fn window(&self, finder: &Finder, chunk: &Chunk<'_, '_>) -> Option<Window>
        requires { IsChunk chunk.now }
        ensures { IfSome result (λ w. (ps : List ℕ) → AreSelected chunk.now.groups.now ps
            → IsIn w ps → ⊥) }
    {
        let Lead::Item { group } = finder.lead else {
            return None;
        };
        if !self.cells.has_integers(finder.source) {
            return None;
        }
        let Some(here) = chunk.groups().get(group as usize) else {
            return None;
        };
        match here.piece() {
            Piece::Span { .. } => Some(Window::new(group, here.marks())),
            Piece::List { .. } | Piece::Matches { .. } => None,
        }
    }

    /// Looks at positions of the window's group from those on: where the key is found to come behind
    /// a bar they are not left.
    pub fn behind(
        &self,
        window: &mut Window,
        finder: &Finder,
        graph: &Graph,
        typed: &Typed,
        chunk: &Chunk<'_, '_>,
        positions: &[u32],
        down: bool,
        bar: &Value<'_>,
    )
        requires chunk { IsChunkOf graph.now typed.now chunk.now }
        requires selected { AreSelected chunk.now.groups.now positions.now }
        requires led { IsLed graph.now typed.now chunk.now finder.now }
        requires finder { FindsSome graph.now self.now.cells.sources finder.now }
        ensures { (key : Key) → IsFinder self.now.cells.sources (asked key graph.now) finder.now
            → AreBehind graph.now typed.now chunk.now window.old key down (val bar.now)
            → AreBehind graph.now typed.now chunk.now window.new key down (val bar.now) }
    {
        let Way::Node(range) = finder.way else {
            return;
        };
        let Lead::Item { group } = finder.lead else {
            return;
        };
        if group != window.group {
            return;
        }
        let Piece::Span { low: _, high } = chunk.group(group).piece() else {
            return;
        };
        let spot = Spot {
            graph,
            typed,
            chunk,
            positions,
        };
        let position = positions[group as usize];
        let row = spot.item(group) - position % 64;
        let count = high.min(range.count).saturating_sub(row).min(WINDOW);
        let marks = self.cells.behind(finder.source, row, count, down, bar);
        window.take(position / 64, &marks);
    }
}

/// What finds a value in a chunk, if it is known where the number of its variable lies there.
pub fn hold_key(
    finder: Finder,
    graph: &Graph,
    typed: &Typed,
    chunk: &Chunk<'_, '_>,
    positions: &[u32],
) -> Option<Finder>
    requires chunk { IsChunkOf graph.now typed.now chunk.now }
    requires selected { AreSelected chunk.now.groups.now positions.now }
    ensures finder { (ss : List Means) → (a : Asked)
        → IsFinder ss a finder → IfSome result (IsFinder ss a) }
    ensures led { IfSome result (IsLed graph.now typed.now chunk.now) }
{
    let lead = lead_of(has_many(chunk), finder.way, graph, typed, chunk, positions);
    if let Lead::Unknown = lead {
        return None;
    }
    Some(Finder { lead, ..finder })
}
