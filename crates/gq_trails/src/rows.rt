//! The rows by which the trails of a query continue a row.
ghost use Rattle.std.specs.Prelude.{◌≡◌, ◌∷◌, [], ◌+◌, ◌≤◌, ◌&&◌, All, IfOk, true, false, length};
ghost use Rattle.std.specs.Prelude.{nat_eq};
ghost use Rattle.std.specs.List.{list_all};
ghost use Rattle.gq_plan.specs.Meaning as meaning;
ghost use Rattle.gq_trails.specs.Continued.{are_apart, have_ends, rows_continued, walked_count};
ghost use Rattle.gq_trails.specs.Trekking.{CanTrek, HasLength};
ghost use Rattle.gq_outer.specs.Rows.{read};

use crate::chain::Chain;
use crate::trails::Trails;
use gq_base::Memory;
use gq_outer::WideRow;
use gq_plan::{TrailPart, TypedRel};
use gq_store::Graph;
use std::alloc::Global;
use std::marker::Model;

/// The rows by which the trails of a query continue a row: one for each way to walk them. Where it
/// is said that each row counts once, a trail is not walked if it and all that follow have a least
/// length of 1 and share no relationship with a later one, as the last trail never does: there is
/// then one row for each of its ends, and it takes time linear in the graph. There is room for them
/// from the start, so that going on takes no memory.
#[derive(Drop)]
pub struct TrailRows<'g> {
    once: bool,
    ways: Ways<'g>,
}

// All ways to walk trails; or these for the first of them, and the ends of those behind.
#[derive(Drop)]
enum Ways<'g> {
    Walked(Trails<'g>),
    Reached(Chain<'g>),
}

impl<'g> Model for TrailRows<'g> {
    ghost use Rattle.std.specs.Coded.{codes};
    ghost use Rattle.gq_expr.specs.contracts.expr.Expr as expr;
    ghost use Rattle.gq_trails.specs.Continued.{Continuing};

    ghost Value = { Continuing };

    ghost coded = { Prim.hlevel (codes, expr.the_row.coded) };

    ghost use Rattle.gq_trails.specs.steps.Chained.{IsContinuing, continuing_of};

    ghost view = { continuing_of };

    ghost invariant = { IsContinuing };
}

impl<'g> TrailRows<'g> {
    /// Rows of so many variables, of which none is owed. `once` says that each row counts once,
    /// however often it comes. After `Memory` there are none.
    pub fn new(
        alloc: Global,
        graph: &'g Graph,
        parts: &'g [TrailPart],
        once: bool,
        nodes: u32,
        rels: u32,
    ) -> Result<TrailRows<'g>, Memory>
        requires { All HasLength parts.now }
        ensures graph { IfOk result (λ t. t.graph ≡ graph.now) }
        ensures parts { IfOk result (λ t. t.parts ≡ parts.now) }
        ensures once { IfOk result (λ t. t.once ≡ once) }
        ensures nodes { IfOk result (λ t. t.nodes ≡ nodes) }
        ensures rels { IfOk result (λ t. t.rels ≡ rels) }
        ensures owed { IfOk result (λ t. t.owed ≡ []) }
    {
        let (walked, reached) = parts.split_at(walked_count(once, parts));
        if !reached.is_empty() {
            let chain = Chain::new(alloc, graph, walked, reached, nodes, rels)?;
            return Ok(TrailRows {
                once,
                ways: Ways::Reached(chain),
            });
        }
        let trails = Trails::new(alloc, graph, parts, nodes, rels)?;
        Ok(TrailRows {
            once,
            ways: Ways::Walked(trails),
        })
    }

    /// From now on the rows by which the trails continue a row are owed, whose relationships are
    /// those of an alternative. It takes no memory.
    pub fn begin(&mut self, base: &WideRow, rels: &'g [TypedRel])
        requires walks { CanTrek self.old.graph self.old.parts base.now }
        requires nodes { self.old.nodes ≡ length base.now.nodes }
        requires rels { self.old.rels ≡ length base.now.rels }
        requires few { length self.old.parts + length rels.now ≤ 24 }
        ensures owed { self.new.owed
            ≡ rows_continued self.old.once self.old.graph self.old.parts rels.now base.now }
        ensures graph { self.new.graph ≡ self.old.graph }
        ensures parts { self.new.parts ≡ self.old.parts }
        ensures once { self.new.once ≡ self.old.once }
        ensures nodes { self.new.nodes ≡ self.old.nodes }
        ensures rels { self.new.rels ≡ self.old.rels }
    {
        match &mut self.ways {
            Ways::Walked(trails) => trails.begin(base, rels),
            Ways::Reached(chain) => chain.begin(base, rels),
        }
    }

    /// Goes on to the next row, or answers false where none is owed. It takes no memory.
    pub fn advance(&mut self) -> bool
        ensures next { result ≡ true → self.old.owed ≡ self.new.reached ∷ self.new.owed }
        ensures stands { result ≡ true → self.new.standing ≡ true }
        ensures none { result ≡ false → self.old.owed ≡ [] }
        ensures over { result ≡ false → self.new.owed ≡ [] }
        ensures graph { self.new.graph ≡ self.old.graph }
        ensures parts { self.new.parts ≡ self.old.parts }
        ensures once { self.new.once ≡ self.old.once }
        ensures nodes { self.new.nodes ≡ self.old.nodes }
        ensures rels { self.new.rels ≡ self.old.rels }
    {
        match &mut self.ways {
            Ways::Walked(trails) => trails.advance(),
            Ways::Reached(chain) => chain.advance(),
        }
    }

    /// The row that was reached last.
    pub fn row(&self) -> &WideRow
        requires { self.now.standing ≡ true }
        ensures { read result.now ≡ meaning.row self.now.reached }
    {
        match &self.ways {
            Ways::Walked(trails) => trails.row(),
            Ways::Reached(chain) => chain.row(),
        }
    }
}

// How many trails are walked, before those that are gone through by their ends.
fn walked_count(once: bool, parts: &[TrailPart]) -> usize
    ensures count { result ≡ walked_count once parts.now }
    ensures few { result ≤ length parts.now }
{
    let Some((_, later)) = parts.split_first() else {
        return 0;
    };
    if once && have_ends(parts) {
        0
    } else {
        1 + walked_count(once, later)
    }
}

// Whether each of some trails has one relationship or more, and none that a later one can have.
fn have_ends(parts: &[TrailPart]) -> bool
    ensures { result ≡ have_ends parts.now }
{
    let Some((part, later)) = parts.split_first() else {
        return true;
    };
    has_ends(part, later) && have_ends(later)
}

// Whether a trail has one relationship or more, and none that one of some others can have.
fn has_ends(part: &TrailPart, others: &[TrailPart]) -> bool
    ensures { result ≡ (nat_eq part.now.low 1 && list_all (are_apart part.now) others.now) }
{
    part.low == 1 && are_all_apart(part, others)
}

// Whether each of some trails is of another clause than a trail, or of another type.
fn are_all_apart(part: &TrailPart, others: &[TrailPart]) -> bool
    ensures { result ≡ list_all (are_apart part.now) others.now }
{
    others.iter().all(|other| are_apart(part, other))
}

// Whether two trails are of different clauses, or of different types.
fn are_apart(part: &TrailPart, other: &TrailPart) -> bool
    ensures { result ≡ are_apart part.now other.now }
{
    part.clause != other.clause || !part.kind.is(other.kind.as_str())
}
