//! How much one statement may copy.
ghost use Rattle.std.specs.Prelude.{◌≡◌, ◌+◌, ◌<◌, ◌≤◌, OnOk};

use gq_base::{Literal, Memory, Text};
use gq_expr::Expr;
use std::marker::Model;

/// The parts of expressions, and the bytes of texts in them, that the sort items of one statement may copy. A statement
/// has at most 65,536 bytes, so it needs many more only where ORDER BY names a long column very often.
const MOST_PARTS: usize = 1_048_576;

/// How much may still be copied: parts of expressions and bytes of the texts in them. Where a copy needs more, the
/// answer is `Limit`, so that no short statement can ask for a tree of gigabytes. It is seen as what is left.
#[derive(Drop)]
pub struct Copying {
    left: usize,
}

impl Model for Copying {
    ghost use Rattle.std.specs.Prelude.{ℕ};

    ghost Value = { ℕ };

    ghost view = { λ c. c.left };
}

impl Copying {
    /// So many parts and bytes.
    pub fn of(parts: usize) -> Copying
        ensures { result ≡ parts }
    {
        Copying { left: parts }
    }

    /// All that the sort items of one statement may copy.
    pub fn new() -> Copying
        ensures { result ≡ 1048576 }
    {
        Copying { left: MOST_PARTS }
    }

    /// Takes what an expression has besides its operands: one part, and the bytes of its text.
    pub fn take_part(&mut self, expr: &Expr) -> Result<(), Memory>
        ensures { OnOk result (self.new < self.old) }
    {
        self.take(1)?;
        match expr {
            Expr::Literal(literal) => self.take_text(literal),
            Expr::NodeProperty(_, name) => self.take(name.as_str().len()),
            Expr::RelProperty(_, name) => self.take(name.as_str().len()),
            _ => Ok(()),
        }
    }

    /// Takes the bytes of a name.
    pub fn take_name(&mut self, name: &Text) -> Result<(), Memory>
        ensures { OnOk result (self.new ≤ self.old) }
    {
        self.take(name.as_str().len())
    }

    /// Takes literals: one part for each, and the bytes of its text.
    pub fn take_literals(&mut self, literals: &[Literal]) -> Result<(), Memory>
        ensures { OnOk result (self.new ≤ self.old) }
    {
        for literal in literals {
            self.take(1)?;
            self.take_text(literal)?;
        }
        Ok(())
    }

    fn take_text(&mut self, literal: &Literal) -> Result<(), Memory>
        ensures { OnOk result (self.new ≤ self.old) }
    {
        match literal {
            Literal::Str(text) => self.take(text.as_str().len()),
            _ => Ok(()),
        }
    }

    fn take(&mut self, parts: usize) -> Result<(), Memory>
        ensures { OnOk result (self.new + parts ≡ self.old) }
    {
        if parts > self.left {
            return Err(Memory::Limit);
        }
        self.left -= parts;
        Ok(())
    }
}
