//! Texts that stand side by side in one block of bytes.
ghost use Rattle.std.specs.Prelude.{◌≡◌, [], ◌∷◌, ◌++◌, ◌<◌, ◌≤◌, length, slice_index};
ghost use Rattle.std.specs.Prelude.{IfOk, OnOk, OnErr};
ghost use Rattle.std.specs.List.{concat};
ghost use Rattle.gq_dict.specs.Texts.{start_of, text_at};

use gq_base::Memory;
use std::alloc::Global;
use std::marker::Model;
use std::str;

/// Texts that stand side by side in one block of bytes. It is seen as the list of the texts' bytes.
#[derive(Drop)]
pub(crate) struct Texts {
    bytes: Vec<u8>,
    // Where the bytes of each text end: they begin where those of the one before it end.
    ends: Vec<usize>,
}

impl Model for Texts {
    ghost use Rattle.std.specs.Prelude.{List, ℕ};
    ghost use Rattle.gq_dict.specs.steps.Cut.{IsCut, texts_in};

    ghost Value = { List (List ℕ) };

    ghost view = { λ t. texts_in t.bytes.items t.ends.items };

    ghost invariant = { λ t. IsCut t.bytes.items t.ends.items };
}

impl Texts {
    /// No texts, and room for the ends of `count`.
    pub(crate) fn with_capacity(alloc: Global, count: usize) -> Result<Texts, Memory>
        ensures { IfOk result (λ texts. texts ≡ []) }
    {
        Ok(Texts {
            bytes: Vec::new(alloc),
            ends: Vec::with_capacity(alloc, count)?,
        })
    }

    /// How many texts there are.
    #[tactic(auto, using(crate::proofs::Cut::length_texts_in))]
    pub(crate) fn len(&self) -> usize
        ensures { result ≡ length self.now }
    {
        self.ends.len()
    }

    /// The text at a place.
    #[tactic(auto, using(crate::proofs::Cut::reading))]
    pub(crate) fn get(&self, place: usize) -> &str
        requires { place < length self.now }
        ensures { result.now ≡ text_at self.now place }
    {
        let start = start_at(self.ends.as_slice(), place);
        let bytes = &self.bytes[start..self.ends[place]];
        // Each text was a `&str` when it was copied.
        unsafe { str::from_utf8_unchecked(bytes) }
    }

    /// The bytes of all texts, one behind the other.
    #[tactic(auto, using(crate::proofs::Cut::concat_texts))]
    pub(crate) fn bytes(&self) -> &[u8]
        ensures { result.now ≡ concat self.now }
    {
        self.bytes.as_slice()
    }

    /// Where the bytes of a text begin among those of all, or end behind the last text.
    #[tactic(auto, using(crate::proofs::Cut::length_texts_in, crate::proofs::Cut::start_there))]
    pub(crate) fn start(&self, place: usize) -> usize
        requires { place ≤ length self.now }
        ensures { result ≡ start_of self.now place }
    {
        start_at(self.ends.as_slice(), place)
    }

    /// Copies a text behind the others. After `Memory` the texts are as before.
    #[tactic(auto, using(crate::proofs::Cut::cut_push, crate::proofs::Cut::texts_push))]
    pub(crate) fn push(&mut self, text: &str) -> Result<(), Memory>
        ensures pushed { OnOk result (self.new ≡ self.old ++ text.now ∷ []) }
        ensures kept { OnErr result (self.new ≡ self.old) }
    {
        // With room for the end nothing fails behind the bytes.
        self.ends.reserve(1)?;
        self.bytes.extend_from_slice(text.as_bytes())?;
        self.ends.push_reserved(self.bytes.len());
        Ok(())
    }

    /// Gives back the room that no text takes.
    pub(crate) fn shrink_to_fit(&mut self)
        ensures { self.new ≡ self.old }
    {
        self.bytes.shrink_to_fit();
        self.ends.shrink_to_fit();
    }
}

// Where the text at a place begins.
#[tactic(auto, using(crate::proofs::Cut::start_behind))]
fn start_at(ends: &[usize], place: usize) -> usize
    requires { place ≤ length ends.now }
    ensures { result ≡ slice_index (0 ∷ ends.now) place }
{
    if place == 0 { 0 } else { ends[place - 1] }
}
