//! Output in memory.

ghost use Rattle.std.specs.Prelude.{◌≡◌, ◌<◌, ◌≤◌, length, Some, None, IfOk};
ghost use Rattle.std.specs.Io.KnownBytes.{WriteAppends};

use crate::copying::copy_to;
use crate::failing::Failing;
use crate::{Failed, Sink};
use gq_base::{List, Memory};
use std::alloc::Global;
use std::marker::Model;

/// Takes each piece whole and drops it. No write fails, and what it took is not told.
#[derive(Drop)]
pub struct SureSink;

impl SureSink {
    /// A sink that drops what it takes.
    pub fn new() -> SureSink
        ensures { ⟦<SureSink as Sink>⟧.taken result ≡ None }
    {
        SureSink
    }
}

impl Sink for SureSink {
    ghost taken = { λ _. None };

    ghost faults = { λ _. 0 };

    fn write(&mut self, piece: &[u8]) -> Result<usize, Failed> {
        Ok(piece.len())
    }
}

/// Room in memory that takes bytes in pieces, where some writes fail.
#[derive(Drop)]
pub struct MemorySink {
    buffer: Vec<u8>,
    filled: usize,
    piece: u32,
    failing: Failing,
}

impl Model for MemorySink {
    ghost use Rattle.std.specs.Prelude.{◌<◌, ◌≤◌, take, vec_len};
    ghost use Rattle.gq_io.specs.InMemory.{FailingDrain};

    ghost Value = { FailingDrain };

    ghost view = { λ s. record {
      taken = take s.filled s.buffer.items;
      room = vec_len s.buffer;
      piece = s.piece;
      calls = s.failing;
    } };

    ghost invariant = { λ s. (s.filled ≤ vec_len s.buffer) × (0 < s.piece) };
}

impl MemorySink {
    ghost use Rattle.gq_io.specs.InMemory.{empty_drain};

    /// Room for `room` bytes, at most `piece` of them for each write. A write of a nonempty piece fails where its number,
    /// counted from 0 over such writes, is one of these, and where no room is left.
    pub fn new(
        alloc: Global,
        room: u32,
        piece: u32,
        failing: List<u64>,
    ) -> Result<MemorySink, Memory>
        requires { 0 < piece }
        ensures { IfOk result (λ sink. sink ≡ empty_drain room piece failing) }
    {
        Ok(MemorySink {
            buffer: vec![in alloc; 0; room as usize]?,
            filled: 0,
            piece,
            failing: Failing::new(failing),
        })
    }

    /// The bytes that it took.
    pub fn taken(&self) -> &[u8]
        ensures { result.now ≡ self.now.taken }
    {
        &self.buffer[..self.filled]
    }
}

impl Sink for MemorySink {
    ghost use Rattle.gq_io.specs.Causes.{HasCause};
    ghost use Rattle.gq_io.specs.InMemory.{IsWrite, KeepsLimits};
    ghost use Rattle.gq_io.specs.Outside.{TakesSome};

    ghost taken = { λ s. Some s.taken };

    ghost faults = { λ s. s.calls.faults };

    fn write(&mut self, piece: &[u8]) -> Result<usize, Failed>
        ensures bound { TakesSome result piece.now }
        ensures bytes { WriteAppends (Some self.old.taken) (Some self.new.taken) result piece.now }
        ensures cause { HasCause self.old.calls.faults self.new.calls.faults result }
        ensures piece { IfOk result (λ n. n ≤ self.old.piece) }

        ensures empty { length piece.now ≡ 0 → (result ≡ Ok 0) × (self.new ≡ self.old) }
        ensures write { 0 < length piece.now → IsWrite self.old self.new result }
        ensures limits { KeepsLimits self.old self.new }
    {
        if piece.is_empty() {
            return Ok(0);
        }
        self.failing.call()?;
        let count = copy_to(&mut self.buffer, self.filled, self.piece as usize, piece);
        if count == 0 {
            return Err(self.failing.fault());
        }
        self.filled += count;
        Ok(count)
    }
}
