//! The bar that rows have to pass which come first: a row that does not pass it is left out before
//! its values are made, where it is sure to have them.
ghost use Rattle.std.specs.Prelude.{◌≡◌, List, length, map, true};
ghost use Rattle.std.specs.List.{AllByRecursion};
ghost use Rattle.std.specs.declared.cmp.Ordering.TheVariants.{Less};
ghost use Rattle.gq_base.specs.Values.{Val, val};
ghost use Rattle.gq_eval.specs.Asked.{answers};
ghost use Rattle.gq_kept.specs.Answers.{by_direction, keys_order};
ghost use Rattle.gq_plan.specs.declared.bound.NamedExpr.{NamedExpr};
ghost use Rattle.gq_plan.specs.declared.bound.SortExpr.{SortExpr};
ghost use Rattle.gq_values.specs.Sure.{AreSure, AreValues, HasSureColumn, HasSureKey};

use crate::sorting::{direct, split_first};
use gq_base::Value;
use gq_eval::Evaluator;
use gq_expr::{Assigned, is_sure};
use gq_plan::{Bound, NamedExpr, SortExpr};
use std::cmp::Ordering;

/// The first key of the bar, and whether rows descend by it.
#[derive(Clone, Copy)]
pub struct FirstBar<'g> {
    pub down: bool,
    pub value: Value<'g>,
}

impl<'g> FirstBar<'g> {
    /// Whether what comes behind the other is found to come behind it, too.
    pub fn covers(&self, other: &FirstBar<'_>) -> bool
        ensures { (v : Val) → result ≡ true
            → by_direction other.now.down (val other.now.value) v ≡ Less
            → by_direction self.now.down (val self.now.value) v ≡ Less }
    {
        if self.down != other.down {
            return false;
        }
        direct(self.down, &self.value, &other.value).is_le()
    }
}

/// Whether each column and each key is sure to have a value.
pub fn are_sure(bound: &Bound) -> bool
    ensures { result ≡ true → AreSure bound.now }
{
    are_sure_columns(bound.columns.as_slice()) && are_sure_keys(bound.keys.as_slice())
}

fn are_sure_columns(columns: &[NamedExpr]) -> bool
    ensures { result ≡ true → AllByRecursion HasSureColumn columns.now }
{
    match columns {
        [] => true,
        [column, columns @ ..] => is_sure(column.expr.get()) && are_sure_columns(columns),
    }
}

fn are_sure_keys(keys: &[SortExpr]) -> bool
    ensures { result ≡ true → AllByRecursion HasSureKey keys.now }
{
    match keys {
        [] => true,
        [key, keys @ ..] => is_sure(key.expr.get()) && are_sure_keys(keys),
    }
}

/// How the keys of the bar compare with those of an assignment's row, which is known where none of
/// them faults. The first that differs decides, and those behind it are not evaluated.
#[tactic(auto, using(crate::proofs::SureRows::first_decides, crate::proofs::SureRows::level_goes_on))]
pub(crate) fn rank_of_bar<R: Assigned>(
    sorts: &[SortExpr],
    keys: &[Evaluator<'_>],
    bar: &[Value<'_>],
    row: &R,
) -> Ordering
    requires { length keys.now ≡ length sorts.now }
    ensures { (values : List Val)
        → AreValues values (answers (R.assignment row.now) keys.now)
        → result ≡ keys_order sorts.now (map val bar.now) values }
{
    match sorts {
        [] => Ordering::Equal,
        [sort, sorts @ ..] => {
            let [key, keys @ ..] = keys else {
                unreachable!()
            };
            let Ok(value) = key.value(row) else {
                return Ordering::Greater;
            };
            let (first, bar) = split_first(bar);
            match direct(sort.down, &first, &value) {
                Ordering::Equal => rank_of_bar(sorts, keys, bar, row),
                other => other,
            }
        }
    }
}
