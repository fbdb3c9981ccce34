//! Copies of texts of a list.
ghost use Rattle.std.specs.Prelude.{◌≡◌, ◌++◌, [], slice_get, unwrap_or, IfOk, OnOk};

use gq_base::{List, Memory, Text, TryClone};
use std::alloc::Global;

/// A copy of the text at a place, or the empty text where there is none.
pub fn text_at(alloc: Global, texts: &[Text], place: u32) -> Result<Text, Memory>
    ensures { IfOk result (λ t. t ≡ unwrap_or (slice_get texts.now place) []) }
{
    match texts.get(place as usize) {
        Some(text) => text.try_clone(alloc),
        None => Text::new(alloc, ""),
    }
}

/// Appends copies of texts.
pub fn push_texts(alloc: Global, texts: &[Text], all: &mut List<Text>) -> Result<(), Memory>
    ensures { OnOk result (all.new ≡ all.old ++ texts.now) }
{
    for text in texts {
        let copied = text.try_clone(alloc)?;
        all.push(copied)?;
    }
    Ok(())
}
