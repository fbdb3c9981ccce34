//! Sets of tables and of variables, by their numbers: one look says whether one is in a set.
ghost use Rattle.std.specs.Prelude.{◌≡◌, ◌<◌, length, Bool, false, List, OnOk, IfOk, nat_eq};
ghost use Rattle.std.specs.List.{list_any};
ghost use Rattle.gq_choices.specs.steps.Narrowing.{has, with_number};

use gq_base::{List, Memory};
use std::alloc::Global;
use std::marker::Model;

/// A set of numbers, with a mark at the place of each.
#[derive(Drop)]
pub struct NumberSet {
    marks: List<bool>,
}

impl Model for NumberSet {
    ghost Value = { List Bool };

    ghost view = { λ s. s.marks };
}

impl NumberSet {
    /// The empty set, with room for the first numbers.
    pub fn new(alloc: Global, room: u32) -> Result<NumberSet, Memory>
        ensures { IfOk result (λ set. has set ≡ (λ t. false)) }
    {
        match Vec::from_elem(alloc, false, room as usize) {
            Ok(marks) => Ok(NumberSet {
                marks: List::from_vec(marks),
            }),
            Err(_) => Err(Memory::Exhausted),
        }
    }

    /// The set of these numbers.
    pub fn of(alloc: Global, room: u32, numbers: &[u32]) -> Result<NumberSet, Memory>
        ensures { IfOk result (λ set. has set ≡ (λ t. list_any (λ u. nat_eq u t) numbers.now)) }
    {
        let mut set = NumberSet::new(alloc, room)?;
        for number in numbers {
            set.insert(*number)?;
        }
        Ok(set)
    }

    /// Adds a number.
    pub fn insert(&mut self, number: u32) -> Result<(), Memory>
        ensures { OnOk result (has self.new ≡ with_number number (has self.old)) }
    {
        let place = number as usize;
        self.make_room(place)?;
        self.marks.set(place, true);
        Ok(())
    }

    /// Whether a number is in the set.
    pub fn contains(&self, number: u32) -> bool
        ensures { result ≡ has self.now number }
    {
        match self.marks.as_slice().get(number as usize) {
            Some(mark) => *mark,
            None => false,
        }
    }

    /// Whether some number is in the set.
    pub fn has_some(&self) -> bool
        ensures { result ≡ list_any (λ mark. mark) self.now }
    {
        self.marks.as_slice().iter().any(|mark| *mark)
    }

    // Room for a mark at this place.
    fn make_room(&mut self, place: usize) -> Result<(), Memory>
        ensures same { OnOk result (has self.new ≡ has self.old) }
        ensures room { OnOk result (place < length self.new) }
    {
        while self.marks.len() <= place {
            self.marks.push(false)?;
        }
        Ok(())
    }
}
