//! One optional clause at work: the rows that it makes of a row, one after another.
ghost use Rattle.std.specs.Prelude.{◌≡◌, ◌∷◌, ◌<◌, [], IfOk, Some, length};
ghost use Rattle.gq_base.specs.Plain.{Graph};
ghost use Rattle.gq_optional.specs.steps.Asking.{Asks};
ghost use Rattle.gq_optional.specs.steps.Levels.{Finds, GoesOn, HasRows, IsAsWide, IsLevel};
ghost use Rattle.gq_optional.specs.steps.Levels.{IsSameClause, agreeing_in, left_of, made_by};
ghost use Rattle.gq_optional.specs.steps.Levels.{matches_left, now_at, pending};
ghost use Rattle.gq_optional.specs.steps.Listed.{IsClause, IsWhole, match_at};
ghost use Rattle.gq_optional.specs.steps.Looked.{count_shared};
ghost use Rattle.gq_plan.specs.Marked.{Marked};
ghost use Rattle.gq_outer.specs.Clauses.{unmarked, with_match};
ghost use Rattle.gq_outer.specs.Rows.{read};

use crate::clause::{Clause, Matches};
use crate::looking::rows_of;
use crate::optionals::RowShape;
use crate::placing::{place_nodes, place_rels};
use gq_base::Memory;
use gq_eval::{Verdict, judge};
use gq_expr::Fault;
use gq_outer::WideRow;
use std::alloc::Global;
use std::marker::Model;

/// An optional clause, the row that it made last, and what is left to be looked at.
#[derive(Drop)]
pub struct ClauseLevel<'w> {
    pub(crate) clause: &'w Clause<'w>,
    // The alternative that is looked at, its rows, and which of them comes next.
    pub(crate) at: usize,
    pub(crate) rows: &'w [u32],
    pub(crate) next: usize,
    // Work space for a look-up.
    pub(crate) key: Vec<u32>,
    pub(crate) row: WideRow,
    pub(crate) mark: Option<Fault>,
}

/// A match, as a row of a build.
#[derive(Clone, Copy)]
pub struct Found<'w> {
    pub(crate) matches: &'w Matches<'w>,
    pub(crate) at: u32,
}

impl<'w> ClauseLevel<'w> {
    // Looks up the rows of the alternative that is looked at.
    fn look_up(&mut self, before: &WideRow)
        requires level { IsLevel self.old }
        ensures level { IsLevel self.new }
        ensures rows { HasRows self.new }
        ensures pending { pending (read before.now) self.new
            ≡ agreeing_in self.old.clause.now (read before.now) (matches_left self.old) }
        ensures at { self.new.at ≡ self.old.at }
        ensures same { IsSameClause self.old self.new }
    {
        self.next = 0;
        self.rows = rows_of(self.clause, self.at, before, self.key.as_mut_slice());
    }

    // The next match that agrees with the row before.
    fn next_match(&mut self, before: &WideRow) -> Option<Found<'w>>
        requires level { IsLevel self.old }
        requires rows { HasRows self.old }
        ensures level { IsLevel self.new }
        ensures rows { HasRows self.new }
        ensures finds { Finds (read before.now) self.old result self.new }
        ensures same { IsSameClause self.old self.new }
    {
        let clause = self.clause;
        let Some(matches) = clause.matches.get(self.at) else {
            return None;
        };
        if let Some(at) = self.rows.get(self.next) {
            self.next += 1;
            return Some(Found { matches, at: *at });
        }
        self.at += 1;
        self.look_up(before);
        self.next_match(before)
    }

    // Puts a match into the row before.
    fn place(&mut self, before: &WideRow, matches: &Matches<'_>, at: u32)
        requires level { IsLevel self.old }
        requires wide { IsAsWide before.now self.old }
        requires whole { let c = self.old.clause.now in
            IsWhole c.shared c.part.now.nodes matches.now }
        requires there { at < length matches.now.build.rows }
        ensures level { IsLevel self.new }
        ensures row { let part = self.old.clause.now.part.now in
            let t = match_at matches.now at in
            read self.new.row ≡ with_match part.nodes part.rels (read before.now) t }
        ensures at { self.new.at ≡ self.old.at }
        ensures rows { self.new.rows.now ≡ self.old.rows.now }
        ensures next { self.new.next ≡ self.old.next }
        ensures same { IsSameClause self.old self.new }
    {
        self.row.copy_from(before);
        let part = self.clause.part;
        let typed = matches.typed;
        let build = &matches.build;
        let tables = typed.nodes.as_slice();
        let nodes = part.nodes.as_slice();
        place_nodes(&mut self.row, 0, nodes, tables, build, at);
        let rels = part.rels.as_slice();
        place_rels(&mut self.row, 0, rels, typed.rels.as_slice(), build, at);
    }

    // Goes on to the next continuation of the row before, and answers whether there is one.
    fn go_on(&mut self, before: &WideRow) -> bool
        requires level { IsLevel self.old }
        requires rows { HasRows self.old }
        requires wide { IsAsWide before.now self.old }
        ensures level { IsLevel self.new }
        ensures rows { HasRows self.new }
        ensures goes_on { (g : Graph) → Asks g self.old.clause.now →
            GoesOn g (read before.now) self.old result self.new }
        ensures same { IsSameClause self.old self.new }
    {
        'matches: while let Some(found) = self.next_match(before) {
            self.place(before, found.matches, found.at);
            match judge(self.clause.conjuncts.as_slice(), &self.row) {
                Verdict::Dropped => {}
                Verdict::Pass => {
                    self.mark = None;
                    return true;
                }
                Verdict::Fault(fault) => {
                    self.mark = Some(fault);
                    return true;
                }
            }
        }
        false
    }

    // Keeps a row that a fault marks, and makes no other of it.
    fn keep(&mut self, before: &WideRow, fault: Fault)
        requires level { IsLevel self.old }
        requires wide { IsAsWide before.now self.old }
        ensures level { IsLevel self.new }
        ensures row { self.new.row ≡ before.now }
        ensures mark { self.new.mark ≡ Some fault }
        ensures over { matches_left self.new ≡ [] }
        ensures same { IsSameClause self.old self.new }
    {
        self.at = self.clause.matches.len();
        self.row.copy_from(before);
        self.mark = Some(fault);
    }

    // Makes the first row of a row that no fault marks.
    fn make_first(&mut self, before: &WideRow)
        requires level { IsLevel self.old }
        requires wide { IsAsWide before.now self.old }
        ensures level { IsLevel self.new }
        ensures rows { HasRows self.new }
        ensures begins { (g : Graph) → Asks g self.old.clause.now →
            made_by g self.old.clause.now (unmarked (read before.now))
            ≡ now_at self.new ∷ left_of g (read before.now) self.new }
        ensures same { IsSameClause self.old self.new }
    {
        self.at = 0;
        self.look_up(before);
        if !self.go_on(before) {
            self.row.copy_from(before);
            self.mark = None;
        }
    }

    // Makes the first row of a row that comes to the clause.
    fn begin(&mut self, before: &WideRow, mark: Option<Fault>)
        requires level { IsLevel self.old }
        requires wide { IsAsWide before.now self.old }
        ensures level { IsLevel self.new }
        ensures rows { HasRows self.new }
        ensures begins { let m : Marked = record { row = read before.now; mark = mark } in
            (g : Graph) → Asks g self.old.clause.now → made_by g self.old.clause.now m
            ≡ now_at self.new ∷ left_of g (read before.now) self.new }
        ensures same { IsSameClause self.old self.new }
    {
        match mark {
            Some(fault) => self.keep(before, fault),
            None => self.make_first(before),
        }
    }
}

/// A clause at work, as those that work behind one another are kept. It is seen as its fields.
#[derive(Drop)]
pub struct Stage<'w> {
    level: ClauseLevel<'w>,
}

impl<'w> Model for Stage<'w> {
    ghost use Rattle.std.specs.Coded.{codes};
    ghost use Rattle.gq_expr.specs.contracts.expr.Expr as expr;
    ghost use Rattle.gq_optional.specs.declared.clause_level.ClauseLevel.{ClauseLevel};

    ghost Value = { ClauseLevel };

    ghost coded = { Prim.hlevel (codes, expr.the_row.coded) };

    ghost view = { λ s. s.level };
}

impl<'w> Stage<'w> {
    /// A clause that has made no row, for rows of this shape.
    pub(crate) fn new(
        alloc: Global,
        clause: &'w Clause<'w>,
        shape: RowShape,
    ) -> Result<Stage<'w>, Memory>
        requires { IsClause shape.nodes shape.rels clause.now }
        ensures level { IfOk result IsLevel }
        ensures rows { IfOk result HasRows }
        ensures nodes { IfOk result (λ l. length l.row.nodes ≡ shape.nodes) }
        ensures rels { IfOk result (λ l. length l.row.rels ≡ shape.rels) }
        ensures clause { IfOk result (λ l. l.clause.now ≡ clause.now) }
    {
        let key = key_space(alloc, clause.shared.as_slice())?;
        let row = WideRow::new(alloc, shape.nodes, shape.rels)?;
        let level = ClauseLevel {
            clause,
            at: 0,
            rows: &[],
            next: 0,
            key,
            row,
            mark: None,
        };
        Ok(Stage { level })
    }

    /// Makes the first row of a row that comes to the clause.
    pub(crate) fn begin(&mut self, before: &WideRow, mark: Option<Fault>)
        requires level { IsLevel self.old }
        requires wide { IsAsWide before.now self.old }
        ensures level { IsLevel self.new }
        ensures rows { HasRows self.new }
        ensures begins { let m : Marked = record { row = read before.now; mark = mark } in
            (g : Graph) → Asks g self.old.clause.now → made_by g self.old.clause.now m
            ≡ now_at self.new ∷ left_of g (read before.now) self.new }
        ensures same { IsSameClause self.old self.new }
    {
        self.level.begin(before, mark);
    }

    /// Goes on to the next continuation of the row before, and answers whether there is one.
    pub(crate) fn go_on(&mut self, before: &WideRow) -> bool
        requires level { IsLevel self.old }
        requires rows { HasRows self.old }
        requires wide { IsAsWide before.now self.old }
        ensures level { IsLevel self.new }
        ensures rows { HasRows self.new }
        ensures goes_on { (g : Graph) → Asks g self.old.clause.now →
            GoesOn g (read before.now) self.old result self.new }
        ensures same { IsSameClause self.old self.new }
    {
        self.level.go_on(before)
    }

    /// The row that was made last.
    pub(crate) fn row(&self) -> &WideRow
        ensures { result.now ≡ self.now.row }
    {
        &self.level.row
    }

    /// The fault that marks it, if one does.
    pub(crate) fn mark(&self) -> Option<Fault>
        ensures { result ≡ self.now.mark }
    {
        self.level.mark
    }
}

// Work space for a look-up by the variables that are shared.
fn key_space(alloc: Global, shared: &[bool]) -> Result<Vec<u32>, Memory>
    ensures { IfOk result (λ key. length key.items ≡ count_shared shared.now) }
{
    let mut key = Vec::new(alloc);
    'shared: for place in 0..shared.len() {
        if shared[place] {
            key.push(0)?;
        }
    }
    Ok(key)
}
