//! A walk over the rows that optional clauses make of a row, one after another.
ghost use Rattle.std.specs.Prelude.{◌≡◌, ◌∷◌, ◌≤◌, [], None, drop, false, length, take, true};
ghost use Rattle.std.specs.Prelude.{All, IfOk};
ghost use Rattle.std.specs.List.{range_with_len};
ghost use Rattle.gq_base.specs.Plain.{Graph as Plain};
ghost use Rattle.gq_optional.specs.Held.{rows_behind};
ghost use Rattle.gq_optional.specs.steps.Asking.{AllAsk};
ghost use Rattle.gq_optional.specs.steps.Levels.{AreLevels, IsAlike, StepsOn, clauses_of};
ghost use Rattle.gq_optional.specs.steps.Levels.{last_mark, last_row, last_wide, made_by_all};
ghost use Rattle.gq_optional.specs.steps.Levels.{still};
ghost use Rattle.gq_optional.specs.steps.Listed.{IsClause};
ghost use Rattle.gq_optional.specs.steps.Walks.{AreShared, IsWalk, held_by, held_of, owed_by};
ghost use Rattle.gq_optional.specs.steps.Walks.{row_by};
ghost use Rattle.gq_plan.specs.Marked.{Marked};
ghost use Rattle.gq_outer.specs.Rows.{read};

use crate::clause::Clause;
use crate::clause_level::Stage;
use crate::optionals::RowShape;
use gq_base::Memory;
use gq_expr::Fault;
use gq_outer::WideRow;
use gq_store::Graph;
use std::alloc::Global;

/// A walk over the rows that clauses make of a row: where it is, clause by clause.
#[derive(Drop)]
pub struct Walk<'w> {
    // The graph over which the clauses ask their conjuncts.
    pub(crate) graph: &'w Graph,
    // How many node variables the clauses before have.
    pub(crate) first: u32,
    pub(crate) base: WideRow,
    // The row that stands, and its mark.
    pub(crate) row: WideRow,
    pub(crate) mark: Option<Fault>,
    pub(crate) levels: Vec<Stage<'w>>,
    // Whether the first row is still to be made, and whether one stands.
    pub(crate) fresh: bool,
    pub(crate) standing: bool,
}

impl<'w> Walk<'w> {
    /// A walk over what clauses make of rows of this shape, which owes nothing yet.
    pub(crate) fn new(
        alloc: Global,
        graph: &'w Graph,
        shape: RowShape,
        clauses: &'w [Clause<'w>],
    ) -> Result<Walk<'w>, Memory>
        requires clauses { All (IsClause shape.nodes shape.rels) clauses.now }
        requires shared { AreShared (range_with_len 0 shape.first) clauses.now }
        requires asks { AllAsk graph.now clauses.now }
        ensures walk { IfOk result IsWalk }
        ensures held { IfOk result (λ w. held_by w ≡ held_of graph.now shape clauses.now) }
        ensures owed { IfOk result (λ w. owed_by w ≡ []) }
    {
        Ok(Walk {
            graph,
            first: shape.first,
            base: WideRow::new(alloc, shape.nodes, shape.rels)?,
            row: WideRow::new(alloc, shape.nodes, shape.rels)?,
            mark: None,
            levels: stages_of(alloc, clauses, shape)?,
            fresh: false,
            standing: false,
        })
    }

    /// Owes the rows that the clauses make of a row which no fault marks. It takes no memory.
    pub(crate) fn begin(&mut self, base: &WideRow)
        requires walk { IsWalk self.old }
        requires nodes { length self.old.base.nodes ≡ length base.now.nodes }
        requires rels { length self.old.base.rels ≡ length base.now.rels }
        ensures walk { IsWalk self.new }
        ensures owed { owed_by self.new ≡ rows_behind (held_by self.old) base.now }
        ensures standing { self.new.standing ≡ false }
        ensures held { held_by self.new ≡ held_by self.old }
        ensures base { self.new.base ≡ base.now }
    {
        self.base.copy_from(base);
        self.fresh = true;
        self.standing = false;
    }

    /// Goes on to the next row that is owed, and answers whether there is one. It takes no memory.
    #[tactic(auto, using(crate::proofs::Walking::owed_none))]
    pub(crate) fn advance(&mut self) -> bool
        requires walk { IsWalk self.old }
        ensures walk { IsWalk self.new }
        ensures next { result ≡ true → owed_by self.old ≡ row_by self.new ∷ owed_by self.new }
        ensures none { result ≡ false → owed_by self.old ≡ [] }
        ensures over { result ≡ false → owed_by self.new ≡ [] }
        ensures standing { self.new.standing ≡ result }
        ensures held { held_by self.new ≡ held_by self.old }
        ensures base { self.new.base ≡ self.old.base }
    {
        if self.fresh {
            self.make_first();
            return true;
        }
        if self.standing {
            return self.make_next();
        }
        false
    }

    // Makes the first row of the row that came.
    fn make_first(&mut self)
        requires walk { IsWalk self.old }
        requires fresh { self.old.fresh ≡ true }
        ensures walk { IsWalk self.new }
        ensures next { owed_by self.old ≡ row_by self.new ∷ owed_by self.new }
        ensures standing { self.new.standing ≡ true }
        ensures fresh { self.new.fresh ≡ false }
        ensures held { held_by self.new ≡ held_by self.old }
        ensures base { self.new.base ≡ self.old.base }
    {
        self.fresh = false;
        self.standing = true;
        self.row.copy_from(&self.base);
        self.mark = begin_from(self.levels.as_mut_slice(), 0, &mut self.row, None);
    }

    // Makes the row behind the one that stands, and answers whether there is one.
    fn make_next(&mut self) -> bool
        requires walk { IsWalk self.old }
        requires fresh { self.old.fresh ≡ false }
        requires standing { self.old.standing ≡ true }
        ensures walk { IsWalk self.new }
        ensures next { result ≡ true → owed_by self.old ≡ row_by self.new ∷ owed_by self.new }
        ensures none { result ≡ false → owed_by self.old ≡ [] }
        ensures over { result ≡ false → owed_by self.new ≡ [] }
        ensures standing { self.new.standing ≡ result }
        ensures held { held_by self.new ≡ held_by self.old }
        ensures base { self.new.base ≡ self.old.base }
    {
        self.standing = step_from(
            self.levels.as_mut_slice(),
            0,
            &self.base,
            &mut self.row,
            &mut self.mark,
        );
        self.standing
    }

    /// The row that stands.
    pub(crate) fn row(&self) -> &WideRow
        ensures { result.now ≡ self.now.row }
    {
        &self.row
    }

    /// The fault that marks it, if one does.
    pub(crate) fn fault(&self) -> Option<Fault>
        ensures { result ≡ self.now.mark }
    {
        self.mark
    }
}

// Clauses that have made no rows, for rows of this shape.
fn stages_of<'w>(
    alloc: Global,
    clauses: &'w [Clause<'w>],
    shape: RowShape,
) -> Result<Vec<Stage<'w>>, Memory>
    requires { All (IsClause shape.nodes shape.rels) clauses.now }
    ensures levels { IfOk result (λ ls. AreLevels shape.nodes shape.rels ls.items) }
    ensures clauses { IfOk result (λ ls. clauses_of ls.items ≡ clauses.now) }
{
    let mut stages = Vec::with_capacity(alloc, clauses.len())?;
    'clauses: for clause in clauses {
        stages.push(Stage::new(alloc, clause, shape)?)?;
    }
    Ok(stages)
}

// Makes the first row of the row that stands, by the clauses from a depth on. The row that they
// make stands afterwards; its mark is answered.
fn begin_from(
    levels: &mut [Stage<'_>],
    depth: usize,
    row: &mut WideRow,
    mark: Option<Fault>,
) -> Option<Fault>
    requires { AreLevels (length row.old.nodes) (length row.old.rels) (drop depth levels.old) }
    ensures levels { let n = length row.old.nodes in
        AreLevels n (length row.old.rels) (drop depth levels.new) }
    ensures kept { take depth levels.new ≡ take depth levels.old }
    ensures begins { let m : Marked = record { row = read row.old; mark = mark } in
        (g : Plain) → AllAsk g (clauses_of (drop depth levels.old)) →
        made_by_all g (clauses_of (drop depth levels.old)) m
        ≡ last_row m (drop depth levels.new)
        ∷ still g (read row.old) (drop depth levels.new) }
    ensures clauses { clauses_of (drop depth levels.new) ≡ clauses_of (drop depth levels.old) }
    ensures row { row.new ≡ last_wide row.old (drop depth levels.new) }
    ensures mark { result ≡ last_mark mark (drop depth levels.new) }
{
    if depth >= levels.len() {
        return mark;
    }
    levels[depth].begin(row, mark);
    row.copy_from(levels[depth].row());
    let mark = levels[depth].mark();
    begin_from(levels, depth + 1, row, mark)
}

// The row that comes to the clause at a depth.
fn coming<'r>(levels: &'r [Stage<'_>], depth: usize, base: &'r WideRow) -> &'r WideRow
    requires { depth ≤ length levels.now }
    ensures { result.now ≡ last_wide base.now (take depth levels.now) }
{
    if depth == 0 {
        return base;
    }
    levels[depth - 1].row()
}

// Goes on to the next row that the clauses from a depth on make, and answers whether there is one:
// the last clause that has a further one makes it, and those behind it begin anew. The row stands
// afterwards, with its mark.
fn step_from(
    levels: &mut [Stage<'_>],
    depth: usize,
    base: &WideRow,
    row: &mut WideRow,
    mark: &mut Option<Fault>,
) -> bool
    requires levels { let n = length row.old.nodes in
        AreLevels n (length row.old.rels) (drop depth levels.old) }
    requires here { IsAlike row.old (last_wide base.now (take depth levels.old)) }
    ensures levels { let n = length row.old.nodes in
        AreLevels n (length row.old.rels) (drop depth levels.new) }
    ensures kept { take depth levels.new ≡ take depth levels.old }
    ensures next { let here = last_wide base.now (take depth levels.old) in
        (g : Plain) → AllAsk g (clauses_of (drop depth levels.old)) →
        StepsOn g (read here) (drop depth levels.old) result (drop depth levels.new) }
    ensures clauses { clauses_of (drop depth levels.new) ≡ clauses_of (drop depth levels.old) }
    ensures wide { IsAlike row.new row.old }
    ensures row { result ≡ true → row.new ≡ last_wide base.now levels.new }
    ensures mark { result ≡ true → mark.new ≡ last_mark None levels.new }
{
    if depth >= levels.len() {
        return false;
    }
    if step_from(levels, depth + 1, base, row, mark) {
        return true;
    }
    row.copy_from(coming(levels, depth, base));
    if !levels[depth].go_on(row) {
        return false;
    }
    row.copy_from(levels[depth].row());
    let made = levels[depth].mark();
    *mark = begin_from(levels, depth + 1, row, made);
    true
}
