//! Trails that are gone through by their ends, one after another, behind trails that are walked: from
//! each end of a trail those that follow go on.
ghost use Rattle.std.specs.Prelude.{◌≡◌, ◌<◌, ◌≤◌, ◌∷◌, ◌+◌, [], All, IfOk, drop, false, length};
ghost use Rattle.std.specs.Prelude.{true};
ghost use Rattle.gq_law_ends.specs.Reaching.{rows_reached};
ghost use Rattle.gq_law_trails.specs.Trails.{used_in};
ghost use Rattle.gq_plan.specs.Meaning as meaning;
ghost use Rattle.gq_trails.specs.Continued.{rows_by_ends};
ghost use Rattle.gq_trails.specs.Trekking.{CanTrek, HasLength, partial_of, patterns_in};
ghost use Rattle.gq_trails.specs.steps.Chained.{AreEndsAt, AreOfOne, CanBeginAt, GoFrom};
ghost use Rattle.gq_trails.specs.steps.Chained.{HaveGoneBehind, IsAsLongAt, IsRowAt, StandsAt};
ghost use Rattle.gq_trails.specs.steps.Chained.{HaveGoneFrom, IsAdvanced, IsChain, IsChainOf};
ghost use Rattle.gq_trails.specs.steps.Chained.{IsSameChain, IsSetOut, all_parts, barred_behind};
ghost use Rattle.gq_trails.specs.steps.Chained.{ends_in, parts_in, reached_by, rows_owed, stands_in};
ghost use Rattle.gq_trails.specs.steps.Walked.{walked_of};
ghost use Rattle.gq_outer.specs.Rows.{read};

use crate::reached::Ends;
use crate::trails::Trails;
use gq_base::Memory;
use gq_outer::WideRow;
use gq_plan::{TrailPart, TypedRel};
use gq_store::Graph;
use std::alloc::Global;

/// The rows at the ends of trails, behind each way to walk those before them.
#[derive(Drop)]
pub(crate) struct Chain<'g> {
    pub(crate) graph: &'g Graph,
    pub(crate) trails: Trails<'g>,
    // One for each trail that is gone through by its ends, and one at least.
    pub(crate) ends: Vec<Ends<'g>>,
    // Room for the row from which the next of them begins.
    pub(crate) row: WideRow,
    // The relationships of an alternative.
    pub(crate) rels: &'g [TypedRel],
    // Whether the first trail by its ends goes on from a row to which the others were walked.
    pub(crate) begun: bool,
}

impl<'g> Chain<'g> {
    /// The ends of trails behind walked ones, of which none is owed, and empty rows of so many
    /// variables.
    pub(crate) fn new(
        alloc: Global,
        graph: &'g Graph,
        walked: &'g [TrailPart],
        parts: &'g [TrailPart],
        nodes: u32,
        rels: u32,
    ) -> Result<Chain<'g>, Memory>
        requires walked { All HasLength walked.now }
        requires ends { All HasLength parts.now }
        requires some { 1 ≤ length parts.now }
        ensures chain { IfOk result IsChain }
        ensures graph { IfOk result (λ c. c.trails.graph ≡ graph.now) }
        ensures walked { IfOk result (λ c. c.trails.parts ≡ walked.now) }
        ensures ends { IfOk result (λ c. parts_in (ends_in c) ≡ parts.now) }
        ensures nodes { IfOk result (λ c. c.trails.nodes ≡ nodes) }
        ensures rels { IfOk result (λ c. c.trails.rels ≡ rels) }
        ensures owed { IfOk result (λ c. rows_owed c ≡ []) }
    {
        Ok(Chain {
            graph,
            trails: Trails::new(alloc, graph, walked, nodes, rels)?,
            ends: ends_of(alloc, graph, parts, nodes, rels)?,
            row: WideRow::new(alloc, nodes, rels)?,
            rels: &[],
            begun: false,
        })
    }

    /// From now on the rows at the ends are owed to which the trails lead from a row, each without
    /// the relationships that the patterns of its clause have there and that walks of it took.
    pub(crate) fn begin(&mut self, base: &WideRow, rels: &'g [TypedRel])
        requires chain { IsChain self.old }
        requires walks { CanTrek self.old.trails.graph (all_parts self.old) base.now }
        requires nodes { self.old.trails.nodes ≡ length base.now.nodes }
        requires rels { self.old.trails.rels ≡ length base.now.rels }
        requires few { length (all_parts self.old) + length rels.now ≤ 24 }
        ensures owed { let t = self.old.trails in
            let patterns = patterns_in rels.now base.now.rels in
            let ps = parts_in (ends_in self.old) in rows_owed self.new
            ≡ rows_reached t.graph patterns (λ b ws. rows_by_ends t.graph (used_in patterns ws) ps b)
            t.parts (partial_of base.now) [] }
        ensures chain { IsChain self.new }
        ensures same { IsSameChain self.old self.new }
    {
        self.graph.stands_valid();
        self.trails.begin(base, rels);
        self.rels = rels;
        self.begun = false;
    }

    /// Goes on to the next row, or answers false where none is owed.
    pub(crate) fn advance(&mut self) -> bool
        requires { IsChain self.old }
        ensures next { result ≡ true → rows_owed self.old
            ≡ reached_by self.new.trails.reached.row (ends_in self.new) ∷ rows_owed self.new }
        ensures stands { result ≡ true → stands_in self.new ≡ true }
        ensures none { result ≡ false → rows_owed self.old ≡ [] }
        ensures over { result ≡ false → rows_owed self.new ≡ [] }
        ensures chain { IsChain self.new }
        ensures same { IsSameChain self.old self.new }
    {
        let begun = self.begun;
        let rels = self.rels;
        self.begun = go_behind(begun, &mut self.trails, &mut self.ends, &mut self.row, rels);
        self.begun
    }

    /// The row that was reached last.
    pub(crate) fn row(&self) -> &WideRow
        requires chain { IsChain self.now }
        requires stands { stands_in self.now ≡ true }
        ensures { read result.now
            ≡ meaning.row (reached_by self.now.trails.reached.row (ends_in self.now)) }
    {
        &self.ends[self.ends.len() - 1].row
    }
}

// The ends of each of some trails.
fn ends_of<'g>(
    alloc: Global,
    graph: &'g Graph,
    parts: &'g [TrailPart],
    nodes: u32,
    rels: u32,
) -> Result<Vec<Ends<'g>>, Memory>
    requires { All HasLength parts.now }
    ensures all { IfOk result (λ ends. AreOfOne graph.now nodes rels ends.items) }
    ensures parts { IfOk result (λ ends. parts_in ends.items ≡ parts.now) }
{
    let mut ends = Vec::with_capacity(alloc, parts.len())?;
    'parts: for part in parts {
        ends.push(Ends::new(alloc, graph, part, nodes, rels)?)?;
    }
    Ok(ends)
}

// Goes on to the next row that trails make behind walked ones, and answers whether there is one.
fn go_behind(
    begun: bool,
    trails: &mut Trails<'_>,
    ends: &mut Vec<Ends<'_>>,
    row: &mut WideRow,
    rels: &[TypedRel],
) -> bool
    requires chain { IsChainOf rels.now begun trails.old ends.old.items }
    requires nodes { length row.old.nodes ≡ trails.old.nodes }
    requires rels { length row.old.rels ≡ trails.old.rels }
    ensures gone { HaveGoneBehind rels.now begun trails.old ends.old.items trails.new
        ends.new.items result }
    ensures nodes { length row.new.nodes ≡ length row.old.nodes }
    ensures rels { length row.new.rels ≡ length row.old.rels }
{
    let mut begun = begun;
    'rows: loop {
        if go_on(begun, ends, 0, row, rels, trails) {
            return true;
        }
        if !trails.advance() {
            return false;
        }
        set_out(ends, 0, trails.base(), rels, trails);
        begun = true;
    }
}

// Goes on to the next row that the trail at a place and those that follow make, and answers whether
// there is one. There is none where they are not begun.
fn go_on(
    begun: bool,
    ends: &mut Vec<Ends<'_>>,
    at: usize,
    row: &mut WideRow,
    rels: &[TypedRel],
    walked: &Trails<'_>,
) -> bool
    requires low { at < length ends.old.items }
    requires few { begun ≡ true → length walked.now.parts + length rels.now ≤ 24 }
    requires stands { begun ≡ true → walked.now.standing ≡ true }
    requires all { let t = walked.now in AreOfOne t.graph t.nodes t.rels (drop at ends.old.items) }
    requires goes { begun ≡ true → GoFrom walked.now.graph ends.old.items at }
    requires nodes { length row.old.nodes ≡ walked.now.nodes }
    requires rels { length row.old.rels ≡ walked.now.rels }
    ensures gone { let t = walked.now in
        HaveGoneFrom t.graph (barred_behind rels.now (walked_of t)) t.nodes t.rels begun at
        ends.old.items ends.new.items result }
    ensures nodes { length row.new.nodes ≡ length row.old.nodes }
    ensures rels { length row.new.rels ≡ length row.old.rels }
{
    if !begun {
        return false;
    }
    if at + 1 == ends.len() {
        return advance_at(ends, at);
    }
    'rows: loop {
        let entered = stands_at(ends, at);
        if go_on(entered, ends, at + 1, row, rels, walked) {
            return true;
        }
        if !advance_at(ends, at) {
            return false;
        }
        copy_row(ends, at, row);
        set_out(ends, at + 1, row, rels, walked);
    }
}

// Whether the trail at a place has an end that was reached.
fn stands_at(ends: &Vec<Ends<'_>>, at: usize) -> bool
    requires { at < length ends.now.items }
    ensures { StandsAt at ends.now.items result }
{
    ends[at].stands
}

// A row becomes that of the trail at a place.
fn copy_row(ends: &Vec<Ends<'_>>, at: usize, row: &mut WideRow)
    requires low { at < length ends.now.items }
    requires long { IsAsLongAt at ends.now.items row.old }
    ensures row { IsRowAt at ends.now.items row.new }
    ensures nodes { length row.new.nodes ≡ length row.old.nodes }
    ensures rels { length row.new.rels ≡ length row.old.rels }
{
    row.copy_from(&ends[at].row);
}

// The trail at a place goes on to its next end, and it is answered whether there is one.
fn advance_at(ends: &mut Vec<Ends<'_>>, at: usize) -> bool
    requires low { at < length ends.old.items }
    requires ends { AreEndsAt at ends.old.items }
    ensures { IsAdvanced at ends.old.items ends.new.items result }
{
    ends[at].advance()
}

// The trail at a place begins from a row.
fn set_out(
    ends: &mut Vec<Ends<'_>>,
    at: usize,
    base: &WideRow,
    rels: &[TypedRel],
    walked: &Trails<'_>,
)
    requires low { at < length ends.old.items }
    requires can { CanBeginAt at ends.old.items base.now }
    requires few { length walked.now.parts + length rels.now ≤ 24 }
    requires stands { walked.now.standing ≡ true }
    ensures { IsSetOut at ends.old.items ends.new.items base.now
        (barred_behind rels.now (walked_of walked.now) base.now.rels) }
{
    ends[at].begin(base, rels, walked);
}
