//! Files in memory.

ghost use Rattle.std.specs.Prelude.{◌≡◌, ◌≤◌, length, Some, IfOk, position};
ghost use Rattle.std.specs.Io.{ReadsAtMost};
ghost use Rattle.std.specs.Io.KnownBytes.{ReadConsumes};
ghost use Rattle.std.specs.Str.{bytes_eq};

use crate::copying::copy_from;
use crate::failing::Failing;
use crate::{Failed, Files};
use gq_base::{Bytes, List, Text};
use std::marker::Model;

fn place_of(names: &[Text], name: &str) -> Option<usize>
    ensures { result ≡ position (λ n. bytes_eq n name.now) names.now }
{
    names.iter().position(|n| n.is(name))
}

/// Files in memory. No call fails.
#[derive(Drop)]
pub struct SureFiles {
    names: List<Text>,
    contents: List<Bytes>,
    chosen: Option<usize>,
    at: usize,
    misses: u64,
}

impl Model for SureFiles {
    ghost use Rattle.std.specs.Prelude.{◌≡◌, length};
    ghost use Rattle.gq_io.specs.steps.Held.{unread_of};
    ghost use Rattle.gq_io.specs.InMemory.{Shelf};

    ghost Value = { Shelf };

    ghost view = { λ f. record {
      names = f.names;
      contents = f.contents;
      left = unread_of f.contents f.chosen f.at;
      misses = f.misses;
    } };

    ghost invariant = { λ f. length f.names ≡ length f.contents };
}

impl SureFiles {
    ghost use Rattle.gq_io.specs.InMemory.{new_shelf};

    /// Files by name and, at the same place, their bytes; none is chosen. Of two files with one
    /// name the first counts.
    pub fn new(names: List<Text>, contents: List<Bytes>) -> SureFiles
        requires { length names ≡ length contents }
        ensures { result ≡ new_shelf names contents }
    {
        SureFiles {
            names,
            contents,
            chosen: None,
            at: 0,
            misses: 0,
        }
    }
}

impl Files for SureFiles {
    ghost use Rattle.gq_io.specs.InMemory.{files_of};

    ghost held = { λ f. Some (files_of f) };

    ghost left = { λ f. Some f.left };

    ghost faults = { λ _. 0 };

    ghost misses = { λ f. f.misses };

    fn select(&mut self, name: &str) -> Result<bool, Failed> {
        self.at = 0;
        self.chosen = place_of(self.names.as_slice(), name);
        if self.chosen.is_none() {
            self.misses = self.misses.saturating_add(1);
            return Ok(false);
        }
        Ok(true)
    }

    fn read(&mut self, into: &mut [u8]) -> Result<usize, Failed> {
        let Some(place) = self.chosen else {
            return Ok(0);
        };
        let Some(bytes) = self.contents.as_slice().get(place) else {
            return Ok(0);
        };
        let count = copy_from(bytes.as_slice(), self.at, usize::MAX, into);
        self.at = self.at.saturating_add(count);
        Ok(count)
    }
}

/// Files in memory, of which some calls fail.
#[derive(Drop)]
pub struct MemoryFiles {
    files: SureFiles,
    failing: Failing,
}

impl Model for MemoryFiles {
    ghost use Rattle.gq_io.specs.InMemory.{FailingShelf};

    ghost Value = { FailingShelf };

    ghost view = { λ f. record { shelf = f.files; calls = f.failing } };
}

impl MemoryFiles {
    ghost use Rattle.gq_io.specs.InMemory.{new_shelf, no_calls};

    /// Files by name and, at the same place, their bytes; none is chosen. Of two files with one
    /// name the first counts. The calls with these numbers fail, counted from 0 over `select` and
    /// `read`.
    pub fn new(names: List<Text>, contents: List<Bytes>, failing: List<u64>) -> MemoryFiles
        requires { length names ≡ length contents }
        ensures { result ≡ record { shelf = new_shelf names contents; calls = no_calls failing } }
    {
        MemoryFiles {
            files: SureFiles::new(names, contents),
            failing: Failing::new(failing),
        }
    }
}

impl Files for MemoryFiles {
    ghost use Rattle.gq_io.specs.Causes.{HasCause, HasMiss};
    ghost use Rattle.gq_io.specs.InMemory.{IsCall, files_of};
    ghost use Rattle.gq_io.specs.Outside.{Selects};

    ghost held = { λ f. Some (files_of f.shelf) };

    ghost left = { λ f. Some f.shelf.left };

    ghost faults = { λ f. f.calls.faults };

    ghost misses = { λ f. f.shelf.misses };

    fn select(&mut self, name: &str) -> Result<bool, Failed>
        ensures held { Some (files_of self.new.shelf) ≡ Some (files_of self.old.shelf) }
        ensures chosen { let held = Some (files_of self.old.shelf) in
            IfOk result (Selects held name.now (Some self.new.shelf.left)) }
        ensures cause { HasCause self.old.calls.faults self.new.calls.faults result }
        ensures miss { HasMiss self.old.shelf.misses self.new.shelf.misses result }
        ensures call { IsCall self.old.calls self.new.calls result }
    {
        self.failing.call()?;
        self.files.select(name)
    }

    fn read(&mut self, into: &mut [u8]) -> Result<usize, Failed>
        ensures held { Some (files_of self.new.shelf) ≡ Some (files_of self.old.shelf) }
        ensures bound { ReadsAtMost result into.new }
        ensures bytes { ReadConsumes (Some self.old.shelf.left) (Some self.new.shelf.left)
            result into.new }
        ensures cause { HasCause self.old.calls.faults self.new.calls.faults result }
        ensures misses { self.old.shelf.misses ≤ self.new.shelf.misses }
        ensures call { IsCall self.old.calls self.new.calls result }
    {
        self.failing.call()?;
        self.files.read(into)
    }
}
