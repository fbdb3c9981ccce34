//! What the groups of a search read.
ghost use Rattle.std.specs.Prelude.{◌≡◌, ℕ, ◌+◌, ◌-◌, ◌*◌, ◌%◌, ◌^◌, ◌<◌, ◌≤◌, List, [], ◌∷◌, ◌++◌, Bool};
ghost use Rattle.std.specs.Prelude.{true, length};
ghost use Rattle.gq_search.specs.Layouts.{Layout, IsPlace, piece_of, walks};
ghost use Rattle.gq_search.specs.Marked.{IsMarkedAt};
ghost use Rattle.gq_search.specs.Running.{IsBlank};

use gq_bits::{Marks, VECTOR};

/// The groups of a search, and what they read. It is seen as their layout. It may be told at which
/// numbers the first groups stand, and reads the list of the next one by these.
pub trait Levels {
    /// What is lent to each call to work in, as a pool of vectors.
    type Lent;

    /// How many groups there are, and the layout of their lists.
    ghost groups: { Self → ℕ };

    ghost layout: { Self → Layout };

    /// What stays as it is in what is lent, as which slots are out.
    ghost frame: { Self.Lent → List Bool };

    /// What stays as it is in the levels: what they read.
    ghost Kept: { Type 0 };

    ghost kept: { Self → Kept };

    /// The first groups stand at these numbers.
    ghost stands: { Self → Self.Lent → List ℕ → Type 0 };

    /// They do, and the next group has its whole list.
    ghost opened: { Self → Self.Lent → List ℕ → Type 0 };

    /// It does, and a piece of it was cut last.
    ghost cut_at: { Self → Self.Lent → List ℕ → ℕ → Type 0 };

    /// Whether the group at a depth is flat.
    fn is_flat(&self, depth: usize) -> bool
        requires { depth < groups self.now }
        ensures { (pre : List ℕ) → length pre ≡ depth → result ≡ (layout self.now).flat pre };

    /// Opens the group at a depth, and answers how long its whole list is.
    fn open(&mut self, lent: &mut Self::Lent, depth: usize) -> u32
        requires inside { depth < groups self.old }
        requires stands { (pre : List ℕ) × (length pre ≡ depth) × stands self.old lent.old pre }
        ensures opened { (pre : List ℕ) → length pre ≡ depth → stands self.old lent.old pre
            → opened self.new lent.new pre }
        ensures size { (pre : List ℕ) → length pre ≡ depth → stands self.old lent.old pre
            → result ≡ (layout self.old).size pre }
        ensures groups { groups self.new ≡ groups self.old }
        ensures layout { layout self.new ≡ layout self.old }
        ensures frame { frame lent.new ≡ frame lent.old }
        ensures kept { kept self.new ≡ kept self.old };

    /// Whether pieces may be passed over. Where not, `next_piece` is not asked.
    fn passes_over(&self) -> bool;

    /// A piece of the group at a depth, from one on, before which none from that one on has a kept
    /// place. The size of its whole list is told. The piece itself is always such an answer.
    fn next_piece(&self, lent: &Self::Lent, depth: usize, size: u32, piece: u32) -> u32
        requires inside { depth < groups self.now }
        requires opened { (pre : List ℕ) × (length pre ≡ depth) × opened self.now lent.now pre
            × (size ≡ (layout self.now).size pre) × (VECTOR * piece < size) }
        ensures later { piece ≤ result }
        ensures blank { (pre : List ℕ) → length pre ≡ depth → opened self.now lent.now pre
            → IsBlank (layout self.now) pre piece result };

    /// Marks the places of a piece of the group at a depth that its tests keep, and no others. The
    /// size of its whole list is told.
    fn cut(&mut self, lent: &mut Self::Lent, depth: usize, size: u32, piece: u32, marks: &mut Marks)
        requires inside { depth < groups self.old }
        requires opened { (pre : List ℕ) × (length pre ≡ depth) × opened self.old lent.old pre
            × (size ≡ (layout self.old).size pre) × (VECTOR * piece < size) }
        ensures opened { (pre : List ℕ) → length pre ≡ depth → opened self.old lent.old pre
            → opened self.new lent.new pre }
        ensures piece { (pre : List ℕ) → length pre ≡ depth → opened self.old lent.old pre
            → cut_at self.new lent.new pre piece }
        ensures marks { (pre : List ℕ) → length pre ≡ depth → opened self.old lent.old pre
            → IsMarkedAt (layout self.old) pre piece marks.new }
        ensures groups { groups self.new ≡ groups self.old }
        ensures layout { layout self.new ≡ layout self.old }
        ensures frame { frame lent.new ≡ frame lent.old }
        ensures kept { kept self.new ≡ kept self.old };

    /// Whether it is known of a place of the group at a depth, which is flat, that nothing is behind
    /// it: groups may look ahead, each as far as it likes.
    fn ends_at(&mut self, lent: &mut Self::Lent, depth: usize, place: u32) -> bool
        requires inside { depth < groups self.old }
        requires opened { (pre : List ℕ) × (length pre ≡ depth) × opened self.old lent.old pre
            × ((layout self.old).flat pre ≡ true) × IsPlace (layout self.old) pre place place }
        ensures opened { (pre : List ℕ) → length pre ≡ depth → opened self.old lent.old pre
            → opened self.new lent.new pre }
        ensures piece { (pre : List ℕ) (piece : ℕ) → length pre ≡ depth
            → cut_at self.old lent.old pre piece → cut_at self.new lent.new pre piece }
        ensures ends { result ≡ true → (pre : List ℕ) → length pre ≡ depth
            → opened self.old lent.old pre → (layout self.old).flat pre ≡ true
            → IsPlace (layout self.old) pre place place
            → walks (layout self.old) (groups self.old - (depth + 1)) (pre ++ place ∷ []) ≡ [] }
        ensures groups { groups self.new ≡ groups self.old }
        ensures layout { layout self.new ≡ layout self.old }
        ensures frame { frame lent.new ≡ frame lent.old }
        ensures kept { kept self.new ≡ kept self.old };

    /// The group at a depth stands at a number, of which one kept place is told.
    fn stand(&mut self, lent: &mut Self::Lent, depth: usize, number: u32, place: u32)
        requires inside { depth < groups self.old }
        requires opened { (pre : List ℕ) × (length pre ≡ depth) × opened self.old lent.old pre
            × cut_at self.old lent.old pre (piece_of ((layout self.old).flat pre) number)
            × IsPlace (layout self.old) pre number place × ((layout self.old).size pre < 2 ^ 32) }
        ensures stands { (pre : List ℕ) → length pre ≡ depth → opened self.old lent.old pre
            → cut_at self.old lent.old pre (piece_of ((layout self.old).flat pre) number)
            → IsPlace (layout self.old) pre number place
            → stands self.new lent.new (pre ++ number ∷ []) }
        ensures groups { groups self.new ≡ groups self.old }
        ensures layout { layout self.new ≡ layout self.old }
        ensures frame { frame lent.new ≡ frame lent.old }
        ensures kept { kept self.new ≡ kept self.old };

    /// Where a list is open, the groups before it stand.
    ghost still_stands: { (s : Self) (lent : Self.Lent) (pre : List ℕ) → opened s lent pre → stands
        s lent pre };

    /// A group that stands may go on: it is open, and the piece in which it stands was cut last.
    ghost goes_on: { (s : Self) (lent : Self.Lent) (pre : List ℕ) (k : ℕ) → stands s lent (pre ++ k
        ∷ []) → opened s lent pre };

    ghost keeps_piece: { (s : Self) (lent : Self.Lent) (pre : List ℕ) (k : ℕ) → stands s lent (pre
        ++ k ∷ [])
        → cut_at s lent pre (piece_of ((layout s).flat pre) k) };
}
