//! Groups whose lists hang on nothing and keep every place: the least that can be searched.
ghost use Rattle.std.specs.Prelude.{◌≡◌, ℕ};

use crate::levels::Levels;
use gq_bits::{Marks, VECTOR};

/// A group: how long its list is, and whether it is flat.
#[derive(Clone, Copy)]
pub struct Side {
    pub size: u32,
    pub flat: bool,
}

/// A product of ranges.
#[derive(Drop)]
pub struct Boxes {
    pub sides: Vec<Side>,
}

impl Levels for Boxes {
    type Lent = bool;

    ghost use Rattle.std.specs.Prelude.{length, []};
    ghost use Rattle.gq_search.specs.Boxes.{box_layout};

    ghost groups = { λ b. length b.sides.items };

    ghost layout = { λ b. box_layout b.sides.items };

    ghost frame = { λ lent. [] };

    ghost Kept = { Unit {0} };

    ghost kept = { λ b. tt };

    ghost stands = { λ b lent pre. Unit };

    ghost opened = { λ b lent pre. Unit };

    ghost cut_at = { λ b lent pre piece. Unit };

    fn is_flat(&self, depth: usize) -> bool {
        self.sides[depth].flat
    }

    fn open(&mut self, lent: &mut bool, depth: usize) -> u32 {
        *lent = false;
        self.sides[depth].size
    }

    fn passes_over(&self) -> bool {
        false
    }

    fn next_piece(&self, lent: &bool, depth: usize, size: u32, piece: u32) -> u32 {
        let _ = (*lent, depth, size);
        piece
    }

    fn cut(&mut self, lent: &mut bool, depth: usize, size: u32, piece: u32, marks: &mut Marks) {
        let _ = depth;
        *lent = true;
        let rest = size - piece * VECTOR;
        *marks = Marks::first(rest.min(VECTOR));
    }

    fn ends_at(&mut self, lent: &mut bool, depth: usize, place: u32) -> bool {
        let _ = (depth, place);
        *lent = true;
        false
    }

    fn stand(&mut self, lent: &mut bool, depth: usize, number: u32, place: u32) {
        let _ = (depth, number, place);
        *lent = true;
    }

    ghost still_stands = { λ b lent pre h. h };

    ghost goes_on = { λ b lent pre k h. h };

    ghost keeps_piece = { λ b lent pre k h. h };
}
