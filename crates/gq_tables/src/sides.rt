//! Which vertices have a relationship already, on each side where they may have but one.
ghost use Rattle.std.specs.Prelude.{◌≡◌, ◌<◌, ◌||◌, true, not, length, IfOk};
ghost use Rattle.std.specs.Bool.{OnTrue};
ghost use Rattle.gq_base.specs.Valid.{limits_sources, limits_targets};
ghost use Rattle.gq_tables.specs.steps.Sides.{is_barred, unmarked, with_mark};

use gq_base::{Direction, Memory, Mult, PlainRel};
use std::alloc::Global;
use std::marker::Model;

/// The two sides of a relationship table.
#[derive(Drop)]
pub(crate) struct Sides {
    pub(crate) sources: Side,
    pub(crate) targets: Side,
}

/// One side: whether a vertex may have but one relationship, and if so a mark for each vertex that
/// has it.
#[derive(Drop)]
pub(crate) struct Side {
    is_single: bool,
    marks: Vec<bool>,
}

impl Model for Side {
    ghost use Rattle.gq_tables.specs.steps.Sides.{Marks};

    ghost Value = { Marks };

    ghost view = { λ s. record { is_single = s.is_single; marks = s.marks.items } };
}

impl Sides {
    /// The sides of a table that has no relationships yet, between so many sources and so many
    /// targets.
    pub(crate) fn new(
        alloc: Global,
        mult: Mult,
        sources: usize,
        targets: usize,
    ) -> Result<Sides, Memory>
        ensures sources { IfOk result (λ sides.
            sides.sources ≡ unmarked (limits_sources mult) sources) }
        ensures targets { IfOk result (λ sides.
            sides.targets ≡ unmarked (limits_targets mult) targets) }
    {
        Ok(Sides {
            sources: Side::new(alloc, mult.is_single(Direction::Forward), sources)?,
            targets: Side::new(alloc, mult.is_single(Direction::Backward), targets)?,
        })
    }

    /// Marks the ends of one more relationship, or answers false where one of them may have no
    /// more.
    pub(crate) fn take(&mut self, rel: &PlainRel) -> bool
        requires source_in { self.old.sources.is_single ≡ true
            → rel.now.source < length self.old.sources.marks }
        requires target_in { self.old.targets.is_single ≡ true
            → rel.now.target < length self.old.targets.marks }
        ensures free { result ≡ not (is_barred self.old.sources rel.now.source
            || is_barred self.old.targets rel.now.target) }
        ensures sources { OnTrue result
            (self.new.sources ≡ with_mark self.old.sources rel.now.source) }
        ensures targets { OnTrue result
            (self.new.targets ≡ with_mark self.old.targets rel.now.target) }
    {
        if self.sources.is_barred(rel.source) || self.targets.is_barred(rel.target) {
            return false;
        }
        self.sources.mark(rel.source);
        self.targets.mark(rel.target);
        true
    }
}

impl Side {
    fn new(alloc: Global, is_single: bool, count: usize) -> Result<Side, Memory>
        ensures { IfOk result (λ side. side ≡ unmarked is_single count) }
    {
        if is_single {
            let marks = vec![in alloc; false; count]?;
            Ok(Side { is_single, marks })
        } else {
            let marks = Vec::new(alloc);
            Ok(Side { is_single, marks })
        }
    }

    fn is_barred(&self, row: u32) -> bool
        requires { self.now.is_single ≡ true → row < length self.now.marks }
        ensures { result ≡ is_barred self.now row }
    {
        self.is_single && self.marks[row as usize]
    }

    fn mark(&mut self, row: u32)
        requires { self.old.is_single ≡ true → row < length self.old.marks }
        ensures { self.new ≡ with_mark self.old row }
    {
        if self.is_single {
            self.marks[row as usize] = true;
        }
    }
}
