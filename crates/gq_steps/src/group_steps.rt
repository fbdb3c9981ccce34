//! The steps of one group of a plan.

use crate::action::Action;
use crate::cut::Cut;

/// The steps of one group: the one that makes it, and those that are placed at it.
#[derive(Clone, Copy)]
pub struct GroupSteps {
    pub first: usize,
    pub end: usize,
    pub flat: bool,
    /// What the one does that makes it.
    pub action: Action,
    /// How the places are found that all of them keep.
    pub cut: Cut,
}
