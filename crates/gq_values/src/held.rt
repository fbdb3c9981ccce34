//! The rows that a table holds, as values.
ghost use Rattle.std.specs.Prelude.{◌≡◌, ◌+◌, ◌*◌, ◌<◌, ◌≤◌, ◌^◌, IfOk, IfSome, OnOk, false, length};
ghost use Rattle.std.specs.Prelude.{Ok, [], map, min, true, ℕ};
ghost use Rattle.gq_base.specs.Plain.{Graph};
ghost use Rattle.gq_base.specs.Values.{val};
ghost use Rattle.gq_classes.specs.Rows.{AreWide};
ghost use Rattle.gq_expr.specs.Reading.{Assignment};
ghost use Rattle.gq_kept.specs.Answers.{by_keys};
ghost use Rattle.gq_kept.specs.declared.form.Form.TheVariants.{All, Classes, First, Top};
ghost use Rattle.gq_kept.specs.declared.refusal.More.TheVariants.{Go};
ghost use Rattle.gq_plan.specs.Outcomes.{outcome_by};
ghost use Rattle.gq_project.specs.Judged.{IsRead, asked_outcome, column_count, key_count};
ghost use Rattle.gq_project.specs.Judged.{late_checked};
ghost use Rattle.gq_values.specs.Bars.{IsFirstBar};
ghost use Rattle.gq_values.specs.Keeping.{Adds, AddsFirst, ComesBehind, IsBehind, IsOpen, PushesBy};
ghost use Rattle.gq_values.specs.Keeping.{bar_of, last_of};
ghost use Rattle.gq_values.specs.Sorting.{HasFirsts, HasLastKeys, Sorts};
ghost use Rattle.gq_values.specs.Sure.{AreSure, StartsWith};

use crate::bar::{FirstBar, rank_of_bar};
use crate::sorting::{cut, direct, is_level_or_behind, last_keys, split_first};
use gq_base::{Memory, Value};
use gq_classes::Classes as ClassRows;
use gq_eval::Verdict;
use gq_expr::Assigned;
use gq_kept::{More, RowRefusal, may_keep};
use gq_plan::Bound;
use gq_project::{Question, check, judge};
use std::alloc::Global;

/// The values of rows, one row after another: those of the columns, and those of the keys. With
/// DISTINCT the columns of the first row of each class are among the classes, and the list of columns
/// is work space. Where only the rows that come first count, the bar has the keys of the last of them
/// since the rows were cut last.
#[derive(Drop)]
pub struct Rows<'g> {
    pub columns: Vec<Value<'g>>,
    pub keys: Vec<Value<'g>>,
    pub count: usize,
    pub seen: ClassRows<'g>,
    pub bar: Option<Vec<Value<'g>>>,
}

impl<'g> Rows<'g> {
    // Adds the row of an assignment, unless it is dropped.
    fn add<R: Assigned>(
        &mut self,
        checked: Verdict,
        question: &Question<'_, 'g>,
        row: &R,
        may: bool,
    ) -> Result<bool, RowRefusal>
        requires few { self.old.count < 2 ^ 40 }
        requires checked { checked ≡ late_checked question.now (R.assignment row.now) }
        requires reading { IsRead question.now }
        ensures { let adds = Adds (column_count question.now) (key_count question.now) in
            adds (asked_outcome question.now (R.assignment row.now)) may question.now.limit
            self.old self.new result }
    {
        match judge(checked, &mut self.columns, &mut self.keys, question, row) {
            Ok(true) => {
                if !may {
                    return Err(RowRefusal::TooManyRows {
                        limit: question.limit,
                    });
                }
                self.count += 1;
                Ok(true)
            }
            Ok(false) => Ok(false),
            Err(refusal) => Err(refusal),
        }
    }

    /// Keeps all rows.
    pub fn push_all<R: Assigned>(
        &mut self,
        question: &Question<'_, 'g>,
        row: &R,
    ) -> Result<More, RowRefusal>
        requires open { IsOpen All question.now.limit self.old }
        requires reading { IsRead question.now }
        ensures { let pushes = PushesBy All question.now.bound.now question.now.limit in
            pushes (asked_outcome question.now (R.assignment row.now)) self.old self.new result }
    {
        let may = may_keep(self.count, question.limit);
        let checked = check(question, row);
        match self.add(checked, question, row, may) {
            Ok(_) => Ok(More::Go),
            Err(refusal) => Err(refusal),
        }
    }

    /// Whether each assignment of this value of the first key has a row that comes behind the bar, so
    /// that nothing changes with it. No conjunct is left, and each column and each key is sure to
    /// have a value.
    #[inline(always)]
    pub fn passes_over(&self, bound: &Bound, first: &Value<'_>) -> bool
        ensures { (g : Graph) (here : Assignment) (n : ℕ) (most : ℕ) → AreSure bound.now
            → StartsWith g here bound.now (val first.now) → result ≡ true
            → PushesBy (Top n) bound.now most (outcome_by g bound.now [] here)
            self.now self.now (Ok Go) }
    {
        let Some(bar) = &self.bar else {
            return false;
        };
        let Some(sort) = bound.keys.get(0) else {
            return false;
        };
        let (value, _) = split_first(bar.as_slice());
        direct(sort.down, &value, first).is_lt()
    }

    /// The first key of the bar, where there is one.
    pub fn first_bar(&self, bound: &Bound) -> Option<FirstBar<'g>>
        ensures { IfSome result (IsFirstBar bound.now self.now) }
    {
        let Some(bar) = &self.bar else {
            return None;
        };
        let Some(sort) = bound.keys.get(0) else {
            return None;
        };
        let (value, _) = split_first(bar.as_slice());
        Some(FirstBar {
            down: sort.down,
            value,
        })
    }

    // Whether no row is answered, or the last row comes behind the bar or level with it.
    fn is_last_behind(&self, n: usize, bound: &Bound) -> bool
        ensures { let keys = last_of (length bound.now.keys) (map val self.now.keys.items) in
            result ≡ true → 0 < n → IsBehind bound.now (bar_of self.now) keys }
    {
        if n == 0 {
            return true;
        }
        match &self.bar {
            None => false,
            Some(bar) => {
                let keys = last_keys(self.keys.as_slice(), bound);
                is_level_or_behind(bound, bar.as_slice(), keys)
            }
        }
    }

    // Whether an assignment's row comes behind the bar or level with it, as far as that is known
    // before its values are made.
    fn is_left_behind<R: Assigned>(
        &self,
        checked: Verdict,
        question: &Question<'_, 'g>,
        row: &R,
    ) -> bool
        requires checked { checked ≡ late_checked question.now (R.assignment row.now) }
        requires sure { question.now.sure ≡ true → AreSure question.now.bound.now }
        requires reading { IsRead question.now }
        ensures { let o = asked_outcome question.now (R.assignment row.now) in
            result ≡ true → ComesBehind question.now.bound.now o self.now }
    {
        if !question.sure {
            return false;
        }
        let Verdict::Pass = checked else {
            return false;
        };
        match &self.bar {
            None => false,
            Some(bar) => {
                let sorts = question.bound.keys.as_slice();
                let keys = question.reading.keys.as_slice();
                rank_of_bar(sorts, keys, bar.as_slice(), row).is_le()
            }
        }
    }

    // Takes a row for those that come first, and drops it where it comes behind the bar.
    fn add_first<R: Assigned>(
        &mut self,
        n: usize,
        question: &Question<'_, 'g>,
        row: &R,
    ) -> Result<bool, RowRefusal>
        requires open { IsOpen (Top n) question.now.limit self.old }
        requires sure { question.now.sure ≡ true → AreSure question.now.bound.now }
        requires reading { IsRead question.now }
        ensures { let adds = AddsFirst question.now.bound.now n question.now.limit in
            adds (asked_outcome question.now (R.assignment row.now)) self.old self.new result }
    {
        let checked = check(question, row);
        if self.is_left_behind(checked, question, row) {
            return Ok(false);
        }
        let columns = self.columns.len();
        let keys = self.keys.len();
        let may = has_room(self.count, n, question.limit);
        match self.add(checked, question, row, may) {
            Ok(true) => {}
            Ok(false) => return Ok(false),
            Err(refusal) => return Err(refusal),
        }
        if self.is_last_behind(n, question.bound) {
            self.columns.truncate(columns);
            self.keys.truncate(keys);
            self.count -= 1;
            return Ok(false);
        }
        Ok(true)
    }

    /// Keeps rows behind which, or level with which, so many rows may still come first.
    pub fn push_top<R: Assigned>(
        &mut self,
        alloc: Global,
        n: usize,
        question: &Question<'_, 'g>,
        row: &R,
    ) -> Result<More, RowRefusal>
        requires open { IsOpen (Top n) question.now.limit self.old }
        requires sure { question.now.sure ≡ true → AreSure question.now.bound.now }
        requires reading { IsRead question.now }
        ensures { let pushes = PushesBy (Top n) question.now.bound.now question.now.limit in
            pushes (asked_outcome question.now (R.assignment row.now)) self.old self.new result }
    {
        match self.add_first(n, question, row) {
            Ok(true) => {}
            Ok(false) => return Ok(More::Go),
            Err(refusal) => return Err(refusal),
        }
        if is_to_cut(self.count, n) {
            self.keep_first(alloc, n, question.bound)?;
        }
        Ok(More::Go)
    }

    // Keeps so many of the rows, those that come first, and the keys of the last of them as the bar.
    #[cold]
    #[inline(never)]
    fn keep_first(&mut self, alloc: Global, n: usize, bound: &Bound) -> Result<(), Memory>
        ensures sorts { let b = bound.now in
            OnOk result (Sorts (length b.columns) (length b.keys) (by_keys b) n
            self.old self.new) }
        ensures bar { OnOk result (HasLastKeys (length bound.now.keys) self.new) }
    {
        cut(alloc, self, bound, n)
    }

    /// Keeps the first row of each class.
    pub fn push_class<R: Assigned>(
        &mut self,
        question: &Question<'_, 'g>,
        row: &R,
    ) -> Result<More, RowRefusal>
        requires open { IsOpen Classes question.now.limit self.old }
        requires reading { IsRead question.now }
        requires wide { AreWide (column_count question.now) self.old.seen }
        ensures { let pushes = PushesBy Classes question.now.bound.now question.now.limit in
            pushes (asked_outcome question.now (R.assignment row.now)) self.old self.new result }
    {
        let start = self.keys.len();
        self.columns.clear();
        let checked = check(question, row);
        match judge(checked, &mut self.columns, &mut self.keys, question, row) {
            Ok(true) => {}
            Ok(false) => return Ok(More::Go),
            Err(refusal) => return Err(refusal),
        }
        let new = self.seen.insert(self.columns.as_slice())?;
        if !new {
            self.keys.truncate(start);
            return Ok(More::Go);
        }
        if !may_keep(self.count, question.limit) {
            return Err(RowRefusal::TooManyRows {
                limit: question.limit,
            });
        }
        self.count += 1;
        Ok(More::Go)
    }
}

// Whether rows are to be cut to the `n` that come first: they are twice as many, so that a cut is
// worth its time.
fn is_to_cut(count: usize, n: usize) -> bool
    ensures yes { result ≡ true → n ≤ count }
    ensures no { result ≡ false → count ≤ 2 * n }
{
    count / 2 >= n
}

// Whether one more row of those that come first passes no limit.
fn has_room(count: usize, n: usize, limit: u32) -> bool
    ensures yes { result ≡ true → min (count + 1) n ≤ limit }
    ensures no { result ≡ false → limit < min (count + 1) n }
{
    may_keep(count, limit) || n <= limit as usize
}

/// The first rows of the classes, one row after another.
pub fn first_rows<'g>(alloc: Global, rows: Rows<'g>) -> Result<Rows<'g>, Memory>
    ensures { IfOk result (HasFirsts rows.entry) }
{
    let Rows {
        columns: _,
        keys,
        count,
        seen,
        bar: _,
    } = rows;
    let columns = seen.into_values(alloc)?;
    Ok(Rows {
        columns,
        keys,
        count,
        seen: ClassRows::new(alloc),
        bar: None,
    })
}
