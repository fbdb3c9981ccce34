//! The search for the next chunk.
ghost use Rattle.std.specs.Prelude.{◌≡◌, ◌<◌, ◌≤◌, ◌+◌, ◌-◌, ◌*◌, ◌%◌, ◌/◌, ◌^◌, ℕ, length, slice_set};
ghost use Rattle.std.specs.Prelude.{slice_index_or, take, vec_len, IfOk, true, false, List, []};
ghost use Rattle.std.specs.Prelude.{◌≢◌, MatchBool};
ghost use Rattle.std.specs.Prelude.{◌∷◌, ◌++◌};
ghost use Rattle.gq_search.specs.Layouts.{below, count, live, piece_of, numbers_in, IsPlace};
ghost use Rattle.gq_search.specs.Marked.{IsMarkedAt};
ghost use Rattle.gq_search.specs.Running.{IsReady, IsAt, WithMarks, Opens, prefix, cursor_at};
ghost use Rattle.gq_search.specs.Running.{stands_at, has_mark, Jumps, Passes};
ghost use Rattle.gq_search.specs.Running.{IsSound, Moves, stands_by};

use crate::levels::Levels;
use gq_base::Memory;
use gq_bits::{Marks, VECTOR};
use std::alloc::Global;

/// Where a group is: the length of its whole list, and the number at which it stands.
#[derive(Clone, Copy)]
pub struct Cursor {
    pub size: u32,
    pub key: u32,
}

/// Whether a chunk stands.
#[derive(Clone, Copy)]
pub enum State {
    Fresh,
    Standing,
    Done,
}

/// A search over levels.
#[derive(Drop)]
pub struct Walker {
    pub cursors: Vec<Cursor>,
    pub marks: Vec<Marks>,
    pub state: State,
}

impl Walker {
    /// A search over so many groups that owes all of their walks; `Memory` where there is no memory
    /// for it.
    pub fn new(alloc: Global, groups: usize) -> Result<Walker, Memory>
        ensures cursors { IfOk result (λ w. length w.cursors.items ≡ groups) }
        ensures marks { IfOk result (λ w. length w.marks.items ≡ groups) }
        ensures fresh { IfOk result (λ w. w.state ≡ State.Fresh) }
    {
        let mut cursors = Vec::new(alloc);
        let mut marks = Vec::new(alloc);
        for _ in 0..groups {
            cursors.push(Cursor { size: 0, key: 0 })?;
            marks.push(Marks::none())?;
        }
        Ok(Walker {
            cursors,
            marks,
            state: State::Fresh,
        })
    }

    /// The next chunk stands, or nothing is owed. Over no groups there is one walk, without positions.
    pub fn advance<L: Levels>(&mut self, levels: &mut L, lent: &mut L::Lent) -> bool
        requires sound { IsSound (L.layout levels.old) (L.groups levels.old)
            (record {
              cursors = self.old.cursors.items;
              marks = self.old.marks.items;
              state = self.old.state;
            }) }
        requires stands { stands_by self.old.state self.old.cursors.items
            (L.stands levels.old lent.old) }
        ensures stands { stands_by self.new.state self.new.cursors.items
            (L.stands levels.new lent.new) }
        ensures moves { Moves (L.layout levels.old) (L.groups levels.old)
            (record {
              cursors = self.old.cursors.items;
              marks = self.old.marks.items;
              state = self.old.state;
            }) result
            (record {
              cursors = self.new.cursors.items;
              marks = self.new.marks.items;
              state = self.new.state;
            }) }
        ensures groups { L.groups levels.new ≡ L.groups levels.old }
        ensures layout { L.layout levels.new ≡ L.layout levels.old }
        ensures frame { L.frame lent.new ≡ L.frame lent.old }
        ensures kept { L.kept levels.new ≡ L.kept levels.old }
    {
        let groups = self.cursors.len();
        if groups == 0 {
            return self.step_alone();
        }
        let mut depth = 0;
        let mut next: u32 = 0;
        match self.state {
            State::Fresh => self.open(levels, lent, 0),
            State::Standing => {
                depth = groups - 1;
                next = self.cursors[depth].key + 1;
            }
            State::Done => return false,
        }
        let asks = levels.passes_over();
        'search: loop {
            let ahead = self.ahead(levels, lent, asks, depth, next);
            if next < ahead {
                next = ahead;
            } else if next < self.numbers(levels, depth) {
                if self.look(levels, lent, depth, next) {
                    self.stand(levels, lent, depth, next);
                    if depth + 1 == groups {
                        self.state = State::Standing;
                        return true;
                    }
                    depth += 1;
                    next = 0;
                    self.open(levels, lent, depth);
                } else {
                    next = self.after(levels, depth, next);
                }
            } else if depth == 0 {
                self.state = State::Done;
                return false;
            } else {
                depth -= 1;
                next = self.cursors[depth].key + 1;
            }
        }
    }

    // The step of a search over no groups, which owes one walk before it stands.
    fn step_alone(&mut self) -> bool
        ensures cursors { self.new.cursors.items ≡ self.old.cursors.items }
        ensures marks { self.new.marks.items ≡ self.old.marks.items }
        ensures step { MatchBool result
            ((self.old.state ≡ State.Fresh) × (self.new.state ≡ State.Standing))
            ((self.old.state ≢ State.Fresh) × (self.new.state ≡ State.Done)) }
    {
        match self.state {
            State::Fresh => {
                self.state = State::Standing;
                true
            }
            State::Standing | State::Done => {
                self.state = State::Done;
                false
            }
        }
    }

    // Opens the group at a depth: it has its whole list, and stands at no number yet.
    fn open<L: Levels>(&mut self, levels: &mut L, lent: &mut L::Lent, depth: usize)
        requires inside { depth < length self.old.cursors.items }
        requires groups { depth < L.groups levels.old }
        requires stands { L.stands levels.old lent.old (prefix self.old.cursors.items depth) }
        ensures opened { L.opened levels.new lent.new (prefix self.old.cursors.items depth) }
        ensures cursors { Opens (L.layout levels.old) (prefix self.old.cursors.items depth)
            self.old.cursors.items depth self.new.cursors.items }
        ensures marks { self.new.marks.items ≡ self.old.marks.items }
        ensures state { self.new.state ≡ self.old.state }
        ensures groups { L.groups levels.new ≡ L.groups levels.old }
        ensures layout { L.layout levels.new ≡ L.layout levels.old }
        ensures frame { L.frame lent.new ≡ L.frame lent.old }
        ensures kept { L.kept levels.new ≡ L.kept levels.old }
    {
        let size = levels.open(lent, depth);
        self.cursors[depth] = Cursor { size, key: 0 };
    }

    // How many numbers the group at a depth has.
    fn numbers<L: Levels>(&self, levels: &L, depth: usize) -> u32
        requires inside { depth < length self.now.cursors.items }
        requires groups { depth < L.groups levels.now }
        requires size { (cursor_at self.now.cursors.items depth).size ≡ (L.layout levels.now).size
            (prefix self.now.cursors.items depth) }
        ensures { result ≡ count (L.layout levels.now) (prefix self.now.cursors.items depth) }
    {
        let size = self.cursors[depth].size;
        if levels.is_flat(depth) {
            size
        } else {
            size.div_ceil(VECTOR)
        }
    }

    // A number of the group at a depth, from one on, before which none from that one on has a kept
    // place: that one itself where pieces are not passed over, in the middle of a piece, whose marks
    // were cut, and past the list.
    fn ahead<L: Levels>(
        &self,
        levels: &L,
        lent: &L::Lent,
        asks: bool,
        depth: usize,
        next: u32,
    ) -> u32
        requires inside { depth < length self.now.cursors.items }
        requires groups { depth < L.groups levels.now }
        requires opened { L.opened levels.now lent.now (prefix self.now.cursors.items depth) }
        requires size { (cursor_at self.now.cursors.items depth).size ≡ (L.layout levels.now).size
            (prefix self.now.cursors.items depth) }
        ensures { Jumps (L.layout levels.now) (prefix self.now.cursors.items depth) next result }
    {
        if !asks {
            return next;
        }
        let size = self.cursors[depth].size;
        if levels.is_flat(depth) {
            if next >= size || next % VECTOR != 0 {
                return next;
            }
            let piece = levels.next_piece(lent, depth, size, next / VECTOR);
            if piece > u32::MAX / VECTOR {
                return next;
            }
            return piece * VECTOR;
        }
        if next >= size.div_ceil(VECTOR) {
            return next;
        }
        levels.next_piece(lent, depth, size, next)
    }

    // Whether a number of the group at a depth has a kept place behind which there may be something.
    // The marks of its piece are cut.
    fn look<L: Levels>(
        &mut self,
        levels: &mut L,
        lent: &mut L::Lent,
        depth: usize,
        next: u32,
    ) -> bool
        requires ready { IsReady (L.layout levels.old) (L.groups levels.old) (L.opened levels.old
            lent.old) (L.cut_at levels.old lent.old) self.old.cursors.items self.old.marks.items
            depth next }
        requires inside { next < count (L.layout levels.old) (prefix self.old.cursors.items depth) }
        ensures marks { WithMarks (L.layout levels.old) self.old.cursors.items self.old.marks.items
            depth next self.new.marks.items }
        ensures at { IsAt (L.layout levels.old) (L.opened levels.new lent.new) (L.cut_at levels.new
            lent.new) (prefix self.old.cursors.items depth) next }
        ensures live { result ≡ true → live (L.layout levels.old) (prefix self.old.cursors.items
            depth) next ≡ true }
        ensures none { result ≡ false → below (L.layout levels.old) (L.groups levels.old
            - (depth + 1)) (prefix self.old.cursors.items depth) next ≡ [] }
        ensures cursors { self.new.cursors.items ≡ self.old.cursors.items }
        ensures state { self.new.state ≡ self.old.state }
        ensures groups { L.groups levels.new ≡ L.groups levels.old }
        ensures layout { L.layout levels.new ≡ L.layout levels.old }
        ensures frame { L.frame lent.new ≡ L.frame lent.old }
        ensures kept { L.kept levels.new ≡ L.kept levels.old }
    {
        if !self.keeps(levels, lent, depth, next) {
            return false;
        }
        if !levels.is_flat(depth) {
            return true;
        }
        !levels.ends_at(lent, depth, next)
    }

    // Whether a number of the group at a depth has a kept place. The marks of its piece are cut.
    fn keeps<L: Levels>(
        &mut self,
        levels: &mut L,
        lent: &mut L::Lent,
        depth: usize,
        next: u32,
    ) -> bool
        requires ready { IsReady (L.layout levels.old) (L.groups levels.old) (L.opened levels.old
            lent.old) (L.cut_at levels.old lent.old) self.old.cursors.items self.old.marks.items
            depth next }
        requires inside { next < count (L.layout levels.old) (prefix self.old.cursors.items depth) }
        ensures marks { WithMarks (L.layout levels.old) self.old.cursors.items self.old.marks.items
            depth next self.new.marks.items }
        ensures at { IsAt (L.layout levels.old) (L.opened levels.new lent.new) (L.cut_at levels.new
            lent.new) (prefix self.old.cursors.items depth) next }
        ensures live { result ≡ live (L.layout levels.old) (prefix self.old.cursors.items depth)
            next }
        ensures cursors { self.new.cursors.items ≡ self.old.cursors.items }
        ensures state { self.new.state ≡ self.old.state }
        ensures groups { L.groups levels.new ≡ L.groups levels.old }
        ensures layout { L.layout levels.new ≡ L.layout levels.old }
        ensures frame { L.frame lent.new ≡ L.frame lent.old }
        ensures kept { L.kept levels.new ≡ L.kept levels.old }
    {
        let flat = levels.is_flat(depth);
        let piece = if flat { next / VECTOR } else { next };
        if !flat || next % VECTOR == 0 {
            let size = self.cursors[depth].size;
            let marks = &mut self.marks[depth];
            levels.cut(lent, depth, size, piece, marks);
        }
        is_live(&self.marks[depth], flat, next)
    }

    // The number to look at after one of the group at a depth: in a flat group the next marked
    // place of the piece, or else the end of the piece or of the list.
    fn after<L: Levels>(&self, levels: &L, depth: usize, next: u32) -> u32
        requires inside { depth < length self.now.cursors.items }
        requires marks { depth < length self.now.marks.items }
        requires groups { depth < L.groups levels.now }
        requires len { length (prefix self.now.cursors.items depth) ≡ depth }
        requires size { (cursor_at self.now.cursors.items depth).size ≡ (L.layout levels.now).size
            (prefix self.now.cursors.items depth) }
        requires whole { length (slice_index_or self.now.marks.items depth []) ≡ VECTOR }
        requires fits { next + 1 < 2 ^ 32 }
        requires number { next < count (L.layout levels.now) (prefix self.now.cursors.items depth) }
        ensures { let pre = prefix self.now.cursors.items depth in Passes (L.layout levels.now) pre
            (slice_index_or self.now.marks.items depth []) next result }
    {
        if !levels.is_flat(depth) {
            return next + 1;
        }
        let rest = self.cursors[depth].size - next;
        next + behind(&self.marks[depth], next % VECTOR).min(rest)
    }

    // A kept place of a number of the group at a depth.
    fn place<L: Levels>(&self, levels: &L, depth: usize, next: u32) -> u32
        requires inside { depth < length self.now.marks.items }
        requires groups { depth < L.groups levels.now }
        requires len { length (prefix self.now.cursors.items depth) ≡ depth }
        requires size { (L.layout levels.now).size (prefix self.now.cursors.items depth) < 2 ^ 32 }
        requires number { next < count (L.layout levels.now) (prefix self.now.cursors.items depth) }
        requires live { live (L.layout levels.now) (prefix self.now.cursors.items depth) next ≡
            true }
        requires marked { IsMarkedAt (L.layout levels.now) (prefix self.now.cursors.items depth)
            (piece_of ((L.layout levels.now).flat (prefix self.now.cursors.items depth)) next)
            (slice_index_or self.now.marks.items depth []) }
        ensures { IsPlace (L.layout levels.now) (prefix self.now.cursors.items depth) next result }
    {
        if levels.is_flat(depth) {
            return next;
        }
        match self.marks[depth].next_from(0) {
            Some(offset) => next * VECTOR + offset,
            None => unreachable!(),
        }
    }

    // The group at a depth stands at a number, which has a kept place.
    fn stand<L: Levels>(&mut self, levels: &mut L, lent: &mut L::Lent, depth: usize, next: u32)
        requires inside { depth < length self.old.cursors.items }
        requires marks { depth < length self.old.marks.items }
        requires groups { depth < L.groups levels.old }
        requires len { length (prefix self.old.cursors.items depth) ≡ depth }
        requires size { (L.layout levels.old).size (prefix self.old.cursors.items depth) < 2 ^ 32 }
        requires number { next < count (L.layout levels.old) (prefix self.old.cursors.items depth) }
        requires at { IsAt (L.layout levels.old) (L.opened levels.old lent.old) (L.cut_at levels.old
            lent.old) (prefix self.old.cursors.items depth) next }
        requires live { live (L.layout levels.old) (prefix self.old.cursors.items depth) next ≡
            true }
        requires marked { IsMarkedAt (L.layout levels.old) (prefix self.old.cursors.items depth)
            (piece_of ((L.layout levels.old).flat (prefix self.old.cursors.items depth)) next)
            (slice_index_or self.old.marks.items depth []) }
        ensures stands { L.stands levels.new lent.new (prefix self.old.cursors.items depth ++ next ∷
            []) }
        ensures cursors { self.new.cursors.items ≡ slice_set self.old.cursors.items depth (stands_at
            self.old.cursors.items depth next) }
        ensures marks { self.new.marks.items ≡ self.old.marks.items }
        ensures state { self.new.state ≡ self.old.state }
        ensures groups { L.groups levels.new ≡ L.groups levels.old }
        ensures layout { L.layout levels.new ≡ L.layout levels.old }
        ensures frame { L.frame lent.new ≡ L.frame lent.old }
        ensures kept { L.kept levels.new ≡ L.kept levels.old }
    {
        let place = self.place(levels, depth, next);
        levels.stand(lent, depth, next, place);
        let size = self.cursors[depth].size;
        self.cursors[depth] = Cursor { size, key: next };
    }
}

// How far behind a place of a piece the next marked one is, or else the end of the piece.
fn behind(marks: &Marks, place: u32) -> u32
    requires len { length marks.now ≡ VECTOR }
    requires place { place < VECTOR }
    ensures some { 0 < result }
    ensures within { place + result ≤ VECTOR }
    ensures blank { (k : ℕ) → place < k → k < place + result →
        slice_index_or marks.now k false ≡ false }
{
    match marks.next_from(place + 1) {
        Some(other) => other - place,
        None => VECTOR - place,
    }
}

// Whether the marks of its piece leave a place of a number.
fn is_live(marks: &Marks, flat: bool, next: u32) -> bool
    requires { length marks.now ≡ VECTOR }
    ensures at { flat ≡ true → result ≡ slice_index_or marks.now (next % VECTOR) false }
    ensures any { flat ≡ false → result ≡ has_mark marks.now }
{
    if flat {
        marks.get(next % VECTOR)
    } else {
        marks.next_from(0).is_some()
    }
}
