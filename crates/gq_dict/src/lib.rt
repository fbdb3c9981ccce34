//! A dictionary: distinct texts in order of their bytes, which stand side by side, each with its
//! place as its code. The crate stands on `gq_base` alone.
#![tactic(auto)]

ghost use Rattle.std.specs.Prelude.{◌≡◌, ◌↔◌, ℕ, List, ◌^◌, ◌<◌, ◌≤◌, ◌-◌, true, false, length};
ghost use Rattle.std.specs.Prelude.{◌&&◌, nat_le, nat_lt, nat_eq, Contains, IfOk, IfSome, IfNone};
ghost use Rattle.std.specs.Prelude.{count_by, map, ◌≢◌};
ghost use Rattle.std.specs.List.{concat, starts_with};
ghost use Rattle.gq_dict.specs.Texts.{IsAscending, comes_before, start_of, text_at};

mod coding;
mod texts;

use crate::texts::Texts;
pub use coding::Coded;
use gq_base::{List, Memory, Text};
use std::alloc::Global;
use std::marker::Model;

/// At most 2^32 - 1 distinct texts, which ascend by their bytes. It is seen as the list of the
/// texts' bytes.
#[derive(Drop)]
pub struct Dict {
    texts: Texts,
}

impl Model for Dict {
    ghost use Rattle.std.specs.Prelude.{List, ℕ};
    ghost use Rattle.gq_dict.specs.steps.Texts.{IsDict};

    ghost Value = { List (List ℕ) };

    ghost view = { λ d. d.texts };

    ghost invariant = { λ d. IsDict d.texts };
}

/// The codes from `low` to below `high`.
#[derive(Clone, Copy, Debug, PartialEq, Eq)]
pub struct CodeRange {
    pub low: u32,
    pub high: u32,
}

impl Dict {
    /// The dictionary of the texts, in which each stands once.
    pub fn build(alloc: Global, texts: &List<Text>) -> Result<Dict, Memory>
        requires { length texts.now < 2 ^ 32 }
        ensures ascending { IfOk result IsAscending }
        ensures same { IfOk result (λ dict.
            (text : List ℕ) → Contains dict text ↔ Contains texts.now text) }
    {
        let Coded { dict, codes: _ } = Coded::build(alloc, borrowed(alloc, texts.as_slice())?)?;
        Ok(dict)
    }

    /// How many texts there are.
    pub fn len(&self) -> u32
        ensures { result ≡ length self.now }
    {
        self.texts.len() as u32
    }

    /// The code of the text, where it is there.
    pub fn code(&self, text: &str) -> Option<u32>
        ensures some { IfSome result (λ code.
            (code < length self.now) × (text_at self.now code ≡ text.now)) }
        ensures none { IfNone result
            ((code : ℕ) → code < length self.now → text_at self.now code ≢ text.now) }
    {
        let code = self.below(text);
        if (code as usize) < self.texts.len() && self.texts.get(code as usize) == text {
            Some(code)
        } else {
            None
        }
    }

    /// The text of a code.
    pub fn text(&self, code: u32) -> &str
        requires { code < length self.now }
        ensures { result.now ≡ text_at self.now code }
    {
        self.texts.get(code as usize)
    }

    /// The bytes of all texts, one behind the other, in the order of their codes.
    pub fn bytes(&self) -> &[u8]
        ensures { result.now ≡ concat self.now }
    {
        self.texts.bytes()
    }

    /// Where the bytes of a code's text begin among those of all texts. That of the code behind the
    /// last one is where they end.
    pub fn start(&self, code: u32) -> usize
        requires { code ≤ length self.now }
        ensures { result ≡ start_of self.now code }
    {
        self.texts.start(code as usize)
    }

    /// How many texts come before the text.
    pub fn below(&self, text: &str) -> u32
        ensures count { result ≡ count_by (λ other. comes_before other text.now) self.now }
        ensures within { result ≤ length self.now }
        ensures before { (code : ℕ) → code < result
            → comes_before (text_at self.now code) text.now ≡ true }
        ensures rest { (code : ℕ) → result ≤ code → code < length self.now
            → comes_before (text_at self.now code) text.now ≡ false }
    {
        let mut low = 0;
        let mut high = self.texts.len();
        while low < high {
            let middle = low + (high - low) / 2;
            if self.texts.get(middle).cmp(text).is_lt() {
                low = middle + 1;
            } else {
                high = middle;
            }
        }
        low as u32
    }

    /// The codes of the texts that begin with the prefix.
    pub fn prefix_range(&self, prefix: &str) -> CodeRange
        ensures ordered { result.low ≤ result.high }
        ensures within { result.high ≤ length self.now }
        ensures exact { (code : ℕ) → code < length self.now →
            (nat_le result.low code && nat_lt code result.high)
            ≡ starts_with nat_eq (text_at self.now code) prefix.now }
    {
        let first = self.below(prefix);
        let mut low = first as usize;
        let mut high = self.texts.len();
        while low < high {
            let middle = low + (high - low) / 2;
            let text = self.texts.get(middle);
            if text.as_bytes().starts_with(prefix.as_bytes()) {
                low = middle + 1;
            } else {
                high = middle;
            }
        }
        CodeRange {
            low: first,
            high: low as u32,
        }
    }
}

// The texts, borrowed, so that they can be sorted without a copy.
fn borrowed<'a>(alloc: Global, texts: &'a [Text]) -> Result<Vec<&'a str>, Memory>
    ensures { IfOk result (λ all. map (λ text. text.now) all.items ≡ texts.now) }
{
    let mut all = Vec::with_capacity(alloc, texts.len())?;
    for text in texts {
        all.push(text.as_str())?;
    }
    Ok(all)
}
