//! Input in memory.

ghost use Rattle.std.specs.Prelude.{◌≡◌, ◌<◌, ◌≤◌, Some, IfOk, IsOk};
ghost use Rattle.std.specs.Io.{ReadsAtMost};
ghost use Rattle.std.specs.Io.KnownBytes.{ReadConsumes};

use crate::copying::copy_from;
use crate::failing::Failing;
use crate::{Failed, Source};
use gq_base::{Bytes, List};
use std::marker::Model;

/// Bytes in memory, given in pieces. No read fails.
#[derive(Drop)]
pub struct SureSource {
    bytes: Bytes,
    at: usize,
    piece: u32,
}

impl Model for SureSource {
    ghost use Rattle.std.specs.Prelude.{◌<◌, drop};
    ghost use Rattle.gq_io.specs.InMemory.{Feed};

    ghost Value = { Feed };

    ghost view = { λ s. record { left = drop s.at s.bytes; piece = s.piece } };

    ghost invariant = { λ s. 0 < s.piece };
}

impl SureSource {
    ghost use Rattle.gq_io.specs.InMemory.{new_feed};

    /// These bytes, at most `piece` of them for each read.
    pub fn new(bytes: Bytes, piece: u32) -> SureSource
        requires { 0 < piece }
        ensures { result ≡ new_feed bytes piece }
    {
        SureSource {
            bytes,
            at: 0,
            piece,
        }
    }
}

impl Source for SureSource {
    ghost left = { λ s. Some s.left };

    ghost faults = { λ _. 0 };

    fn read(&mut self, into: &mut [u8]) -> Result<usize, Failed>
        ensures bound { ReadsAtMost result into.new }
        ensures bytes { ReadConsumes (Some self.old.left) (Some self.new.left) result into.new }
        ensures sure { IsOk result }
        ensures piece { IfOk result (λ n. n ≤ self.old.piece) }
        ensures same { self.new.piece ≡ self.old.piece }
    {
        let count = copy_from(self.bytes.as_slice(), self.at, self.piece as usize, into);
        self.at = self.at.saturating_add(count);
        Ok(count)
    }
}

/// Bytes in memory, given in pieces, of which some reads fail.
#[derive(Drop)]
pub struct MemorySource {
    source: SureSource,
    failing: Failing,
}

impl Model for MemorySource {
    ghost use Rattle.gq_io.specs.InMemory.{FailingFeed};

    ghost Value = { FailingFeed };

    ghost view = { λ s. record { feed = s.source; calls = s.failing } };
}

impl MemorySource {
    ghost use Rattle.gq_io.specs.InMemory.{new_feed, no_calls};

    /// These bytes, at most `piece` of them for each read. The reads with these numbers, counted
    /// from 0, fail.
    pub fn new(bytes: Bytes, piece: u32, failing: List<u64>) -> MemorySource
        requires { 0 < piece }
        ensures { result ≡ record { feed = new_feed bytes piece; calls = no_calls failing } }
    {
        MemorySource {
            source: SureSource::new(bytes, piece),
            failing: Failing::new(failing),
        }
    }
}

impl Source for MemorySource {
    ghost use Rattle.gq_io.specs.Causes.{HasCause};
    ghost use Rattle.gq_io.specs.InMemory.{IsCall};

    ghost left = { λ s. Some s.feed.left };

    ghost faults = { λ s. s.calls.faults };

    fn read(&mut self, into: &mut [u8]) -> Result<usize, Failed>
        ensures bound { ReadsAtMost result into.new }
        ensures bytes { ReadConsumes (Some self.old.feed.left) (Some self.new.feed.left)
            result into.new }
        ensures cause { HasCause self.old.calls.faults self.new.calls.faults result }
        ensures piece { IfOk result (λ n. n ≤ self.old.feed.piece) }
        ensures same { self.new.feed.piece ≡ self.old.feed.piece }
        ensures call { IsCall self.old.calls self.new.calls result }
    {
        self.failing.call()?;
        self.source.read(into)
    }
}
