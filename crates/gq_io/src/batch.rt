//! Small pieces that wait on the stack, so that a sink takes them in few writes.

ghost use Rattle.std.specs.Prelude.{◌≡◌, ℕ, ◌≤◌, List, [], ◌+◌, ◌++◌, ◌↔◌, IsTrue, length, take};

use crate::copying::copy_whole;
use crate::{Failed, Sink, write_all};
use std::marker::Model;

const ROOM: usize = 4096;

/// Bytes that were put and that no sink took yet, at most 4,096. A dropped batch writes nothing:
/// flush it first.
pub struct Batch {
    bytes: [u8; 4096],
    filled: usize,
}

impl Model for Batch {
    ghost Value = { List ℕ };

    ghost view = { λ b. take b.filled b.bytes };

    ghost invariant = { λ b. b.filled ≤ 4096 };
}

impl Drop for Batch {
    fn drop(self) {
        let Batch {
            bytes: _,
            filled: _,
        } = self;
    }
}

impl Batch {
    ghost use Rattle.gq_io.specs.Causes.{HasCause};
    ghost use Rattle.gq_io.specs.Putting.{Puts, Flushes};

    /// A batch in which nothing waits.
    pub fn new() -> Batch
        ensures { result ≡ [] }
    {
        Batch {
            bytes: [0; 4096],
            filled: 0,
        }
    }

    /// How many bytes wait.
    pub fn len(&self) -> usize
        ensures len { result ≡ length self.now }
        ensures most { result ≤ 4096 }
    {
        self.filled
    }

    /// Nothing waits.
    pub fn is_empty(&self) -> bool
        ensures { IsTrue result ↔ (self.now ≡ []) }
    {
        self.len() == 0
    }

    /// What waits.
    pub fn bytes(&self) -> &[u8]
        ensures { result.now ≡ self.now }
    {
        &self.bytes[..self.filled]
    }

    /// Drops what waits behind so many bytes.
    pub fn truncate(&mut self, len: usize)
        requires { len ≤ length self.old }
        ensures { self.new ≡ take len self.old }
    {
        self.filled = len;
    }

    /// Makes the sink take all that waits. After `Failed` nothing is said of what waits.
    pub fn flush<O: Sink>(&mut self, out: &mut O) -> Result<(), Failed>
        ensures bytes { Flushes (O.taken out.old) (O.taken out.new) self.old self.new result }
        ensures cause { HasCause (O.faults out.old) (O.faults out.new) result }
    {
        write_all(out, &self.bytes[..self.filled])?;
        self.filled = 0;
        Ok(())
    }

    // Puts a piece for which there is room.
    fn push(&mut self, piece: &[u8])
        requires { length self.old + length piece.now ≤ 4096 }
        ensures { self.new ≡ self.old ++ piece.now }
    {
        let end = self.filled + piece.len();
        copy_whole(&mut self.bytes[self.filled..end], piece);
        self.filled = end;
    }

    /// Puts a piece behind what waits. After `Failed` nothing is said of what waits.
    #[inline(always)]
    pub fn put<O: Sink>(&mut self, out: &mut O, piece: &[u8]) -> Result<(), Failed>
        ensures bytes { Puts (O.taken out.old) (O.taken out.new)
            self.old self.new piece.now result }
        ensures cause { HasCause (O.faults out.old) (O.faults out.new) result }
    {
        if piece.len() <= ROOM - self.len() {
            self.push(piece);
            return Ok(());
        }
        self.put_behind_all(out, piece)
    }

    // Has the sink take what waits, and puts a piece behind it.
    #[cold]
    #[inline(never)]
    fn put_behind_all<O: Sink>(&mut self, out: &mut O, piece: &[u8]) -> Result<(), Failed>
        ensures bytes { Puts (O.taken out.old) (O.taken out.new)
            self.old self.new piece.now result }
        ensures cause { HasCause (O.faults out.old) (O.faults out.new) result }
    {
        self.flush(out)?;
        // A piece that no batch has room for goes straight through.
        if piece.len() > ROOM {
            return write_all(out, piece);
        }
        self.push(piece);
        Ok(())
    }
}
