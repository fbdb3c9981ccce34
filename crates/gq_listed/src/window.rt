//! Where a key comes behind a bar among the positions of a group that follow one another.
ghost use Rattle.std.specs.Prelude.{◌≡◌, ◌*◌, ◌<◌, ℕ, false, true};
ghost use Rattle.gq_bits.specs.Places.{is_marked};
ghost use Rattle.gq_listed.specs.Windows.{IsIn, IsTold};

use gq_bits::{Marks, VECTOR};
use gq_cells::WINDOW;

/// What is known of the positions of a group: where one is not left, a key comes behind a bar. Those
/// from a place on were not looked at.
#[derive(Drop)]
pub struct Window {
    pub(crate) group: u32,
    pub(crate) left: Marks,
    until: u32,
}

impl Window {
    /// Nothing is known of these positions of a group: they are left.
    pub(crate) fn new(group: u32, marks: &Marks) -> Window
        ensures group { result.group ≡ group }
        ensures left { (k : ℕ) → k < VECTOR → is_marked marks.now k ≡ true
            → is_marked result.left k ≡ true }
    {
        let mut left = Marks::first(VECTOR);
        left.and(marks);
        Window {
            group,
            left,
            until: 0,
        }
    }

    /// The number of the group.
    pub fn group(&self) -> u32
        ensures { result ≡ self.now.group }
    {
        self.group
    }

    /// The positions that are left.
    pub fn left(&self) -> &Marks
        ensures { result.now ≡ self.now.left }
    {
        &self.left
    }

    /// Whether the position of the group was not looked at.
    pub fn is_new(&self, positions: &[u32]) -> bool {
        match positions.get(self.group as usize) {
            Some(position) => *position >= self.until,
            None => false,
        }
    }

    /// Of the positions from 64 times the index on, those are not left that are marked, by how far they
    /// stand from there.
    pub(crate) fn take(&mut self, index: u32, behind: &Marks)
        requires { 64 * index < VECTOR }
        ensures group { self.new.group ≡ self.old.group }
        ensures left { (k : ℕ) → is_marked self.new.left k ≡ false
            → IsTold self.old.left (64 * index) behind.now k }
    {
        let mut ahead = Marks::first(VECTOR);
        ahead.and_not(behind);
        self.left.keep_word(index, ahead.word(0));
        if index + 1 < VECTOR / 64 {
            self.left.keep_word(index + 1, ahead.word(1));
        }
        self.until = 64 * index + WINDOW;
    }
}
