//! What tests are given: a runtime, and values for which there has to be memory.
ghost use Rattle.std.specs.Prelude.{◌≡◌, ◌∷◌, []};

use gq_base::{Bytes, List, Text};
use std::process::Abort;

/// The runtime of a test, which a failure ends.
pub trait Test: Abort + AllocGlobal {}

impl<R: Abort + AllocGlobal> Test for R {}

pub fn text(rt: &impl Test, text: &str) -> Text
    ensures { result ≡ text.now }
{
    Text::new(rt.alloc(), text).expect(rt, "memory")
}

pub fn bytes(rt: &impl Test, bytes: &[u8]) -> Bytes
    ensures { result ≡ bytes.now }
{
    Bytes::new(rt.alloc(), bytes).expect(rt, "memory")
}

// A list of one item.
pub fn one<T: Drop>(rt: &impl Test, item: T) -> List<T>
    ensures { result ≡ item ∷ [] }
{
    let mut list = List::new(rt.alloc());
    list.push(item).expect(rt, "memory");
    list
}
