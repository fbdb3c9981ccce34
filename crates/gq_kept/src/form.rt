//! The form of a query: which of its rows count.
ghost use Rattle.gq_kept.specs.Forms.{HasForm};

use gq_plan::Bound;

/// Which rows count, with SKIP plus LIMIT.
#[derive(Clone, Copy)]
pub enum Form {
    /// All rows.
    All,
    /// Only the first rows.
    First(usize),
    /// Only the rows that come first by their keys.
    Top(usize),
    /// The first row of each class.
    Classes,
}

/// The form of a query.
pub fn form_of(bound: &Bound) -> Form
    ensures { HasForm bound.now result }
{
    if bound.distinct {
        return Form::Classes;
    }
    let Some(limit) = bound.limit else {
        return Form::All;
    };
    if !bound.keys.is_empty() {
        return Form::Top(bound.skip.saturating_add(limit) as usize);
    }
    match bound.skip.checked_add(limit) {
        Some(n) => Form::First(n as usize),
        // No table holds so many rows.
        None => Form::All,
    }
}
