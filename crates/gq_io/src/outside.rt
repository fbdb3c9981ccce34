//! The three traits through which all reading and writing goes.

ghost use Rattle.std.specs.Prelude.{◌≡◌, ℕ, ◌≤◌, Option, List, IfOk};
ghost use Rattle.std.specs.Io.{ReadsAtMost};
ghost use Rattle.std.specs.Io.KnownBytes.{ReadConsumes, WriteAppends};
ghost use Rattle.gq_io.specs.Causes.{HasCause, HasMiss};
ghost use Rattle.gq_io.specs.Outside.{Names, Selects, TakesSome};

/// A call of the outside failed. It read nothing and wrote nothing.
#[derive(Clone, Copy, Debug, PartialEq, Eq)]
pub struct Failed;

/// Files by name, of which one is chosen and read from its front.
pub trait Files {
    /// The files by name, where they are told.
    ghost held: { Self → Option Names };

    /// The unread bytes of the chosen file, where they are told.
    ghost left: { Self → Option (List ℕ) };

    /// How often a call has failed.
    ghost faults: { Self → ℕ };

    /// How often a name was not there.
    ghost misses: { Self → ℕ };

    /// Chooses the file of this name, or answers false and leaves nothing to read. After `Failed` nothing is said of
    /// what is left.
    fn select(&mut self, name: &str) -> Result<bool, Failed>
        ensures held { held self.new ≡ held self.old }
        ensures chosen { IfOk result (Selects (held self.old) name.now (left self.new)) }
        ensures cause { HasCause (faults self.old) (faults self.new) result }
        ensures miss { HasMiss (misses self.old) (misses self.new) result };

    /// Moves bytes of the chosen file to the front of `into`, and answers how many: 0 only at the end or with no room.
    fn read(&mut self, into: &mut [u8]) -> Result<usize, Failed>
        ensures held { held self.new ≡ held self.old }
        ensures bound { ReadsAtMost result into.new }
        ensures bytes { ReadConsumes (left self.old) (left self.new) result into.new }
        ensures cause { HasCause (faults self.old) (faults self.new) result }
        ensures misses { misses self.old ≤ misses self.new };
}

/// Bytes that come in.
pub trait Source {
    /// The unread bytes, where they are told.
    ghost left: { Self → Option (List ℕ) };

    /// How often a read has failed.
    ghost faults: { Self → ℕ };

    /// Moves bytes to the front of `into`, and answers how many: 0 only at the end or with no room.
    fn read(&mut self, into: &mut [u8]) -> Result<usize, Failed>
        ensures bound { ReadsAtMost result into.new }
        ensures bytes { ReadConsumes (left self.old) (left self.new) result into.new }
        ensures cause { HasCause (faults self.old) (faults self.new) result };
}

/// Bytes that go out.
pub trait Sink {
    /// The bytes taken so far, where they are told.
    ghost taken: { Self → Option (List ℕ) };

    /// How often a write has failed.
    ghost faults: { Self → ℕ };

    /// Takes a front of the piece and answers its length: at least 1 where the piece has a byte.
    fn write(&mut self, piece: &[u8]) -> Result<usize, Failed>
        ensures bound { TakesSome result piece.now }
        ensures bytes { WriteAppends (taken self.old) (taken self.new) result piece.now }
        ensures cause { HasCause (faults self.old) (faults self.new) result };
}
