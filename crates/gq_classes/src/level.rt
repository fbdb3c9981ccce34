//! One level of rows: the numbers of their fronts up to a column.
ghost use Rattle.std.specs.Prelude.{◌≡◌, [], true};
ghost use Rattle.gq_base.specs.Values.{val};
ghost use Rattle.gq_classes.specs.steps.Levels.{Numbered, Numbers, texts_of};

use crate::key::Key;
use gq_base::{Memory, Value};
use indexmap::IndexSet;
use std::alloc::Global;

/// The keys of a level, whose places are the numbers, and the number that was told last.
#[derive(Drop)]
pub struct Level {
    pub(crate) keys: IndexSet<Key>,
    pub(crate) last: u32,
}

impl Level {
    /// A level without keys. It takes no memory.
    pub(crate) fn new(alloc: Global) -> Level
        ensures { result.keys.keys ≡ [] }
    {
        Level {
            keys: IndexSet::new(alloc),
            last: 0,
        }
    }

    // Whether the number that was told last is that of a value behind a front. Rows that come one
    // after another mostly have their first values in common.
    fn is_last<'g>(&self, front: u32, value: Value<'g>, texts: &IndexSet<&'g str>) -> bool
        ensures { let texts = texts_of texts.now in let keys = self.now.keys.keys in
            result ≡ true → Numbered texts texts front (val value.entry) keys keys self.now.last }
    {
        match self.keys.get_index(self.last as usize) {
            None => false,
            Some(key) => key.is(front, value, texts),
        }
    }

    /// The number of a value behind a front; the next one where it is new.
    pub(crate) fn number<'g>(
        &mut self,
        front: u32,
        value: Value<'g>,
        texts: &mut IndexSet<&'g str>,
    ) -> Result<u32, Memory>
        ensures { Numbers (texts_of texts.old) (texts_of texts.new) front (val value.entry)
            self.old.keys.keys self.new.keys.keys result }
    {
        if self.is_last(front, value, texts) {
            return Ok(self.last);
        }
        if self.keys.len() >= u32::MAX as usize {
            return Err(Memory::Limit);
        }
        let key = Key::new(front, value, texts)?;
        let (number, _) = self.keys.insert_full(key)?;
        self.last = number as u32;
        Ok(self.last)
    }
}
