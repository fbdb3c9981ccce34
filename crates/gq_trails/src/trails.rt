//! All trails of a query, walked one after another from a row.
ghost use Rattle.std.specs.Prelude.{◌≡◌, ◌∷◌, [], ◌+◌, ◌++◌, ◌*◌, ◌≤◌, All, IfOk, true, false, length};
ghost use Rattle.gq_law_trails.specs.Trails.{taken_in};
ghost use Rattle.gq_trails.specs.Trekking.{CanTrek, HasLength, IsRowOf, continuations};
ghost use Rattle.gq_trails.specs.steps.Walked.{walked_of};

use crate::ends::trail_ends;
use crate::taken::Taken;
use crate::trek::{Route, Trek, take_walks};
use gq_base::Memory;
use gq_ends::TrailEnd;
use gq_hops::{State, state_after};
use gq_outer::WideRow;
use gq_plan::{TrailPart, TypedRel};
use gq_store::Graph;
use std::alloc::Global;
use std::marker::Model;

/// All ways to walk the trails of a query from a row: each trail has a walk, and each node variable
/// that a trail binds has the node where the walk ends. There is room for them from the start, so
/// that walking takes no memory.
#[derive(Drop)]
pub struct Trails<'g> {
    route: Route<'g>,
    // The other ends of the trails.
    ends: Vec<TrailEnd<'g>>,
    trek: Trek<'g>,
    state: State,
}

impl<'g> Model for Trails<'g> {
    ghost use Rattle.std.specs.Coded.{codes};
    ghost use Rattle.gq_expr.specs.contracts.expr.Expr as expr;
    ghost use Rattle.gq_trails.specs.Trekking.{Trekking};

    ghost Value = { Trekking };

    ghost coded = { Prim.hlevel (codes, expr.the_row.coded) };

    ghost use Rattle.gq_trails.specs.steps.Standing.{trekking_of, IsTrekking};

    ghost view = { trekking_of };

    ghost invariant = { IsTrekking };
}

impl<'g> Trails<'g> {
    /// Trails that owe nothing, for rows of so many variables. After `Memory` there are none.
    pub fn new(
        alloc: Global,
        graph: &'g Graph,
        parts: &'g [TrailPart],
        nodes: u32,
        rels: u32,
    ) -> Result<Trails<'g>, Memory>
        requires { All HasLength parts.now }
        ensures graph { IfOk result (λ t. t.graph ≡ graph.now) }
        ensures parts { IfOk result (λ t. t.parts ≡ parts.now) }
        ensures nodes { IfOk result (λ t. t.nodes ≡ nodes) }
        ensures rels { IfOk result (λ t. t.rels ≡ rels) }
        ensures owed { IfOk result (λ t. t.owed ≡ []) }
    {
        Ok(Trails {
            route: Route {
                graph,
                parts,
                rels: &[],
            },
            ends: trail_ends(alloc, graph, parts)?,
            trek: Trek::new(alloc, graph, parts, nodes, rels)?,
            state: State::Over,
        })
    }

    /// From now on the continuations of a row are owed, whose relationships are those of an
    /// alternative. It takes no memory.
    pub fn begin(&mut self, base: &WideRow, rels: &'g [TypedRel])
        requires walks { CanTrek self.old.graph self.old.parts base.now }
        requires nodes { self.old.nodes ≡ length base.now.nodes }
        requires rels { self.old.rels ≡ length base.now.rels }
        requires few { length self.old.parts + length rels.now ≤ 24 }
        ensures owed { self.new.owed
            ≡ continuations self.old.graph self.old.parts rels.now base.now }
        ensures graph { self.new.graph ≡ self.old.graph }
        ensures parts { self.new.parts ≡ self.old.parts }
        ensures nodes { self.new.nodes ≡ self.old.nodes }
        ensures rels { self.new.rels ≡ self.old.rels }
    {
        self.route.rels = rels;
        self.trek.row.copy_from(base);
        self.state = State::Fresh;
    }

    /// Goes on to the next continuation, or answers false where none is owed. It takes no memory.
    pub fn advance(&mut self) -> bool
        ensures next { result ≡ true → self.old.owed ≡ self.new.reached ∷ self.new.owed }
        ensures stands { result ≡ true → self.new.standing ≡ true }
        ensures none { result ≡ false → self.old.owed ≡ [] }
        ensures over { result ≡ false → self.new.owed ≡ [] }
        ensures graph { self.new.graph ≡ self.old.graph }
        ensures parts { self.new.parts ≡ self.old.parts }
        ensures nodes { self.new.nodes ≡ self.old.nodes }
        ensures rels { self.new.rels ≡ self.old.rels }
    {
        let found = match self.state {
            State::Fresh => self.trek.first(&self.route, &mut self.ends),
            State::Standing => self.trek.go_on(&self.route, &mut self.ends),
            State::Over => false,
        };
        self.state = state_after(found);
        found
    }

    /// The row of the continuation that was reached last.
    pub fn row(&self) -> &WideRow
        requires { self.now.standing ≡ true }
        ensures { IsRowOf self.now.reached result.now }
    {
        &self.trek.row
    }

    /// The row of the continuation that was reached last, with its size.
    pub(crate) fn base(&self) -> &WideRow
        requires { self.now.standing ≡ true }
        ensures row { IsRowOf self.now.reached result.now }
        ensures nodes { length result.now.nodes ≡ self.now.nodes }
        ensures rels { length result.now.rels ≡ self.now.rels }
    {
        &self.trek.row
    }

    /// Adds what walks of a clause have in the continuation that was reached last.
    pub(crate) fn take(&self, taken: &mut Taken, clause: u32)
        requires stands { self.now.standing ≡ true }
        requires room { length taken.old + 16 * length self.now.parts ≤ 384 }
        ensures taken { taken.new ≡ taken.old ++ taken_in clause (walked_of self.now) }
        ensures few { length taken.new ≤ length taken.old + 16 * length self.now.parts }
    {
        let parts = self.route.parts;
        let walkers = self.trek.walkers.as_slice();
        take_walks(taken, walkers, parts, parts.len(), clause);
    }
}
