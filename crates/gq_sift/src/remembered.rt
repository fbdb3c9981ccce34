//! The pieces of a list whose places are remembered that tests of rows keep.
ghost use Rattle.std.specs.Prelude.{◌≡◌, ◌+◌, ◌*◌, ◌≤◌, ◌<◌, ◌≢◌, ◌^◌, ◌&&◌, ℕ, length, nat_lt, true, false, [], IfOk, IfSome};
ghost use Rattle.std.specs.Prelude.{slice_index};
ghost use Rattle.gq_bits.specs.Places.{is_marked};
ghost use Rattle.gq_plan.specs.Known.{set_of};
ghost use Rattle.gq_plan.specs.Rows.{rel_table};
ghost use Rattle.gq_sift.specs.Remembered.{Gives, HasMarks, IsRemembered, StandsAt, TakesPiece};
ghost use Rattle.gq_sift.specs.steps.Filters.{FiltersList};
ghost use Rattle.gq_sift.specs.Tested.{IsTested};
ghost use Rattle.gq_steps.specs.Keeps.{IsRange, IsSifted, IsTold};
ghost use Rattle.gq_steps.specs.Levels.{before, built_at, known, step_at};
ghost use Rattle.gq_steps.specs.Matches.{AreMatches};
ghost use Rattle.gq_steps.specs.Moves.{run_of, IsRun, IsHeld};
ghost use Rattle.gq_steps.specs.Tries.{tries};
ghost use Rattle.gq_store.specs.Neighbours.{neighbours};

use crate::keeping::sift;
use crate::lists::{drop_pairs, filters_list, test_list};
use crate::reading::{binds_some, has_test, longest, read_by, reads_alone};
use gq_base::Memory;
use gq_bits::{Marks, VECTOR};
use gq_plan::{Assignment, Follow, Known};
use gq_steps::{GroupSteps, PlanRun};
use std::alloc::Global;

// So many pieces of a list are remembered, at most.
const ROOM: u32 = 512;

/// The places of the first pieces of a list that tests of rows keep, while the rows stand that these
/// tests read.
#[derive(Drop)]
pub struct Remembered {
    pub(crate) follow: Follow,
    // The variables that the tests read, and the one from which the list leads.
    pub(crate) reads: Known,
    // The rows of all node variables where the pieces were cut.
    pub(crate) rows: Vec<u32>,
    pub(crate) pieces: Vec<KeptPiece>,
    room: usize,
    // Whether a piece was cut before where these rows stand: a list that is cut once is not remembered.
    again: bool,
}

/// The marks of a piece of so many places.
#[derive(Drop)]
pub(crate) struct KeptPiece {
    pub(crate) count: u32,
    pub(crate) marks: Marks,
}

impl Remembered {
    /// What is remembered of the list that a group follows: nothing yet. It is there where the group
    /// has tests of rows, and these and the list read nothing that the group before it binds, since
    /// that one moves between two cuts of a piece. The memory is taken here; where there is none,
    /// nothing is remembered.
    pub fn of(
        alloc: Global,
        plan_run: &PlanRun<'_>,
        before: GroupSteps,
        group: GroupSteps,
    ) -> Option<Remembered>
        requires run { IsRun (run_of plan_run.now) }
        requires steps { IsTold (run_of plan_run.now) group }
        ensures { IfSome result (IsRemembered (run_of plan_run.now) group) }
    {
        let follow = filters_list(group)?;
        let reads = read_by(plan_run, group, follow);
        if !has_test(plan_run, group) || binds_some(plan_run, before, reads) {
            return None;
        }
        if !reads.nodes.has(follow.from) || !reads_alone(plan_run, group, reads) {
            return None;
        }
        let room = longest(plan_run, follow).div_ceil(VECTOR).min(ROOM) as usize;
        match Remembered::with_room(alloc, follow, reads, plan_run.typed.nodes.len(), room) {
            Ok(remembered) => Some(remembered),
            Err(_) => None,
        }
    }

    // Nothing is remembered yet, of a list and tests that read these of so many node variables.
    fn with_room(
        alloc: Global,
        follow: Follow,
        reads: Known,
        nodes: usize,
        room: usize,
    ) -> Result<Remembered, Memory>
        ensures follow { IfOk result (λ m. m.follow ≡ follow) }
        ensures reads { IfOk result (λ m. m.reads ≡ reads) }
        ensures rows { IfOk result (λ m. length m.rows.items ≡ nodes) }
        ensures pieces { IfOk result (λ m. m.pieces.items ≡ []) }
    {
        let rows = vec![in alloc; 0u32; nodes]?;
        let pieces = Vec::with_capacity(alloc, room)?;
        Ok(Remembered {
            follow,
            reads,
            rows,
            pieces,
            room,
            again: false,
        })
    }

    // Whether the rows that are read are those where the pieces were cut.
    fn stands(&self, row: &Assignment) -> bool
        requires long { length self.now.rows.items ≡ length row.now.nodes }
        requires few { length self.now.rows.items < 2 ^ 32 }
        ensures { result ≡ true → StandsAt self.now row.now }
    {
        let rows = row.nodes.as_slice();
        for node in 0..rows.len() as u32 {
            if self.is_moved(node, rows[node as usize]) {
                return false;
            }
        }
        true
    }

    // Whether a node variable is read, and had another row than this one.
    fn is_moved(&self, node: u32, row: u32) -> bool
        requires { node < length self.now.rows.items }
        ensures { result ≡ false → set_of self.now.reads.nodes node ≡ true →
            node ≢ self.now.follow.to → slice_index self.now.rows.items node ≡ row }
    {
        node != self.follow.to && self.rows[node as usize] != row && self.reads.nodes.has(node)
    }

    // From now on the rows of an assignment stand: where others stood that are read, all is forgotten.
    fn turn(&mut self, row: &Assignment)
        requires long { length self.old.rows.items ≡ length row.now.nodes }
        requires few { length self.old.rows.items < 2 ^ 32 }
        ensures follow { self.new.follow ≡ self.old.follow }
        ensures reads { self.new.reads ≡ self.old.reads }
        ensures long { length self.new.rows.items ≡ length self.old.rows.items }
        ensures stands { StandsAt self.new row.now }
        ensures kept { self.new.pieces.items ≢ [] → (self.new.rows.items ≡ self.old.rows.items)
            × (self.new.pieces.items ≡ self.old.pieces.items) }
    {
        self.again = self.stands(row);
        if self.again {
            return;
        }
        self.pieces.clear();
        self.rows.copy_from_slice(row.nodes.as_slice());
    }

    // Gives the marks of a piece of so many places, if it is remembered.
    fn give(&self, piece: u32, count: u32, marks: &mut Marks) -> bool
        requires { count ≤ VECTOR }
        ensures { result ≡ true → Gives self.now piece count marks.new }
    {
        match self.pieces.get(piece as usize) {
            None => false,
            Some(kept) => {
                if kept.count != count {
                    return false;
                }
                copy_first(count, &kept.marks, marks);
                true
            }
        }
    }

    // Remembers the marks of a piece of so many places, if it is the next one, there is room, and it was
    // not the first that was cut.
    fn take(&mut self, piece: u32, count: u32, marks: &Marks)
        requires { count ≤ VECTOR }
        ensures follow { self.new.follow ≡ self.old.follow }
        ensures reads { self.new.reads ≡ self.old.reads }
        ensures rows { self.new.rows.items ≡ self.old.rows.items }
        ensures pieces { TakesPiece self.old piece count marks.now self.new }
    {
        if !self.again || self.pieces.len() >= self.room {
            return;
        }
        if piece as usize != self.pieces.len() {
            return;
        }
        let kept = kept_piece(count, marks);
        let _ = self.pieces.push(kept);
    }
}

// The marks of a piece of so many places, to be remembered.
fn kept_piece(count: u32, marks: &Marks) -> KeptPiece
    requires { count ≤ VECTOR }
    ensures { HasMarks count marks.now result }
{
    let mut kept = KeptPiece {
        count,
        marks: Marks::none(),
    };
    copy_first(count, marks, &mut kept.marks);
    kept
}

// Marks those of so many places that are marked in others, and no others.
fn copy_first(count: u32, from: &Marks, to: &mut Marks)
    requires { count ≤ VECTOR }
    ensures whole { length to.new ≡ VECTOR }
    ensures each { (k : ℕ) → is_marked to.new k ≡ (nat_lt k count && is_marked from.now k) }
{
    *to = Marks::first(count);
    to.and(from);
}

/// As `sift`, of so many places of a piece. What tests of rows keep of it is looked up where it is
/// remembered, and remembered where it is not.
pub fn sift_remembered(
    remembered: &mut Remembered,
    plan_run: &mut PlanRun<'_>,
    group: GroupSteps,
    matches: &[u32],
    piece: u32,
    count: u32,
    row: &mut Assignment,
    marks: &mut Marks,
)
    requires run { IsRun (run_of plan_run.old) }
    requires steps { IsRange (run_of plan_run.old) group }
    requires held { IsHeld (run_of plan_run.old) row.old (known (run_of plan_run.old) group.first) }
    requires matches { AreMatches (run_of plan_run.old) group.first row.old matches.now }
    requires count { count ≤ VECTOR }
    requires fits { piece * VECTOR + count < 2 ^ 32 }
    requires inside { let c = run_of plan_run.old in piece * VECTOR + count ≤ length (tries c.graph
        c.typed (built_at c group.first) (step_at c group.first) (before c row.old group.first)) }
    requires remembered { ∥ IsRemembered (run_of plan_run.old) group remembered.old ∥₁ }
    ensures sifted { IsSifted (run_of plan_run.old) group (piece * VECTOR) count row.old row.new
        marks.new }
    ensures remembered { ∥ IsRemembered (run_of plan_run.old) group remembered.new ∥₁ }
    ensures same { plan_run.new ≡ plan_run.old }
{
    let first = piece * VECTOR;
    match filters_list(group) {
        None => sift(plan_run, group, matches, first, count, row, marks),
        Some(follow) => {
            recall(
                remembered, plan_run, group, follow, piece, count, row, marks,
            );
            drop_pairs(plan_run, group, follow, first, count, row, marks);
        }
    }
}

// Marks those of so many places of a piece that the group's steps keep that rows decide, and no
// others.
fn recall(
    remembered: &mut Remembered,
    plan_run: &mut PlanRun<'_>,
    group: GroupSteps,
    follow: Follow,
    piece: u32,
    count: u32,
    row: &mut Assignment,
    marks: &mut Marks,
)
    requires run { IsRun (run_of plan_run.old) }
    requires steps { IsRange (run_of plan_run.old) group }
    requires filters { FiltersList (run_of plan_run.old) group follow }
    requires held { IsHeld (run_of plan_run.old) row.old (known (run_of plan_run.old) group.first) }
    requires count { count ≤ VECTOR }
    requires inside { let table = rel_table plan_run.old.typed.now follow.rel in
        piece * VECTOR + count ≤ length (neighbours plan_run.old.graph.now table follow.direction
        (slice_index row.old.nodes follow.from)) }
    requires fits { piece * VECTOR + count < 2 ^ 32 }
    requires remembered { ∥ IsRemembered (run_of plan_run.old) group remembered.old ∥₁ }
    ensures tested { IsTested (run_of plan_run.old) group follow (piece * VECTOR) count row.old
        marks.new }
    ensures remembered { ∥ IsRemembered (run_of plan_run.old) group remembered.new ∥₁ }
    ensures row { row.new ≡ row.old }
    ensures same { plan_run.new ≡ plan_run.old }
{
    remembered.turn(row);
    if remembered.give(piece, count, marks) {
        return;
    }
    test_list(plan_run, group, follow, piece * VECTOR, count, row, marks);
    remembered.take(piece, count, marks);
}
