//! The system's files, input and output behind the traits: the trusted edge.

ghost use Rattle.std.specs.Prelude.{◌≡◌, None};

use crate::{Failed, Files, Sink, Source};
use std::io::{ErrorKind, Read, Write};
use std::{fs, rt};

/// The files of the runtime. What they hold is not told.
#[derive(Drop)]
pub struct RealFiles<'r, R: rt::Files> {
    runtime: &'r R,
    file: Option<R::File>,
    faults: u64,
    misses: u64,
}

impl<'r, R: rt::Files> RealFiles<'r, R> {
    /// The files of this runtime, none of them chosen.
    pub fn new(runtime: &'r R) -> RealFiles<'r, R>
        ensures faults { ⟦<RealFiles<'r, R> as Files>⟧.faults result ≡ 0 }
        ensures misses { ⟦<RealFiles<'r, R> as Files>⟧.misses result ≡ 0 }
    {
        RealFiles {
            runtime,
            file: None,
            faults: 0,
            misses: 0,
        }
    }
}

impl<'r, R: rt::Files> Files for RealFiles<'r, R> {
    ghost held = { λ _. None };

    ghost left = { λ _. None };

    ghost faults = { λ f. f.faults };

    ghost misses = { λ f. f.misses };

    fn select(&mut self, name: &str) -> Result<bool, Failed> {
        self.file = None;
        match fs::open(self.runtime, name) {
            Ok(file) => {
                self.file = Some(file);
                Ok(true)
            }
            Err(error) => {
                if error.kind() == ErrorKind::NotFound {
                    self.misses = self.misses.saturating_add(1);
                    return Ok(false);
                }
                self.faults = self.faults.saturating_add(1);
                Err(Failed)
            }
        }
    }

    fn read(&mut self, into: &mut [u8]) -> Result<usize, Failed> {
        let Some(file) = &mut self.file else {
            return Ok(0);
        };
        match file.read(into) {
            Ok(count) => Ok(count),
            Err(_) => {
                self.faults = self.faults.saturating_add(1);
                Err(Failed)
            }
        }
    }
}

/// A reader of std. A read that the system interrupts is a fault.
#[derive(Drop)]
pub struct RealSource<S: Read + Drop> {
    reader: S,
    faults: u64,
}

impl<S: Read + Drop> RealSource<S> {
    /// What this reader has left.
    pub fn new(reader: S) -> RealSource<S>
        ensures left { ⟦<RealSource<S> as Source>⟧.left result ≡ S.remaining reader }
        ensures faults { ⟦<RealSource<S> as Source>⟧.faults result ≡ 0 }
    {
        RealSource { reader, faults: 0 }
    }
}

impl<S: Read + Drop> Source for RealSource<S> {
    ghost left = { λ s. S.remaining s.reader };

    ghost faults = { λ s. s.faults };

    fn read(&mut self, into: &mut [u8]) -> Result<usize, Failed> {
        match self.reader.read(into) {
            Ok(count) => Ok(count),
            Err(_) => {
                self.faults = self.faults.saturating_add(1);
                Err(Failed)
            }
        }
    }
}

/// A writer of std, with no buffer of its own. A write that takes nothing of a nonempty piece is a fault.
#[derive(Drop)]
pub struct RealSink<W: Write + Drop> {
    writer: W,
    faults: u64,
}

impl<W: Write + Drop> RealSink<W> {
    /// A sink that writes to this writer.
    pub fn new(writer: W) -> RealSink<W>
        ensures taken { ⟦<RealSink<W> as Sink>⟧.taken result ≡ W.contents writer }
        ensures faults { ⟦<RealSink<W> as Sink>⟧.faults result ≡ 0 }
    {
        RealSink { writer, faults: 0 }
    }
}

impl<W: Write + Drop> Sink for RealSink<W> {
    ghost taken = { λ s. W.contents s.writer };

    ghost faults = { λ s. s.faults };

    fn write(&mut self, piece: &[u8]) -> Result<usize, Failed> {
        match self.writer.write(piece) {
            Ok(0) if !piece.is_empty() => {
                self.faults = self.faults.saturating_add(1);
                Err(Failed)
            }
            Ok(count) => Ok(count),
            Err(_) => {
                self.faults = self.faults.saturating_add(1);
                Err(Failed)
            }
        }
    }
}
