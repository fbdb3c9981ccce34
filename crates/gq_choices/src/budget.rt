//! The steps that a search may take, so that none goes on for long.
ghost use Rattle.std.specs.Prelude.{◌≡◌, ◌+◌, OnOk};

use gq_base::Memory;

/// How many steps may still be taken.
#[derive(Drop)]
pub struct Budget {
    left: usize,
}

impl Budget {
    /// So many steps.
    pub fn new(steps: usize) -> Budget
        ensures { result.left ≡ steps }
    {
        Budget { left: steps }
    }

    /// Takes steps. Where there are fewer, none is left, and what asked for them is given up: it
    /// asks for too much work.
    pub fn take(&mut self, steps: usize) -> Result<(), Memory>
        ensures { OnOk result (self.new.left + steps ≡ self.old.left) }
    {
        if self.left < steps {
            self.left = 0;
            return Err(Memory::Limit);
        }
        self.left -= steps;
        Ok(())
    }

    /// Whether no step is left.
    pub fn is_spent(&self) -> bool {
        self.left == 0
    }
}
