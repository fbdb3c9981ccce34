//! Joins whose matches are found by a value: a test of the group asks that a property of a node of
//! the build is equal to one of a node that stands.
ghost use Rattle.std.specs.Prelude.{◌≡◌, ◌≢◌, ◌<◌, ◌≤◌, ◌+◌, ◌*◌, ◌^◌, ℕ, Bool, List, Some, IfOk, IfSome, length};
ghost use Rattle.std.specs.Prelude.{slice_get, true};
ghost use Rattle.gq_filter.specs.Equal.{node_cell};
ghost use Rattle.gq_index.specs.Numbered.{AreKeys};
ghost use Rattle.gq_join.specs.Kept.{place_of};
ghost use Rattle.gq_pipe.specs.steps.Recalled.{IsOwn};
ghost use Rattle.gq_pipe.specs.steps.Valued.{AreIndexed, AreOpened, IsAsked, IsFoundBy, IsFoundIn, IsIndexed};
ghost use Rattle.gq_pipe.specs.steps.Valued.{IsNotBefore, IsNotBy, IsOpened, IsUsable};
ghost use Rattle.gq_pipe.specs.steps.Valued.{dicts_of, number_in, numbers_in};
ghost use Rattle.gq_chains.specs.Among.{IsAmong};
ghost use Rattle.gq_steps.specs.Keeps.{IsRange, IsSifted};
ghost use Rattle.gq_steps.specs.Levels.{before, built_at, known, step_at};
ghost use Rattle.gq_steps.specs.Matches.{AreMatches};
ghost use Rattle.gq_steps.specs.Moves.{run_of, IsRun, IsHeld};
ghost use Rattle.gq_steps.specs.Tries.{tries};

use crate::recalled::sift_piece;
use crate::value_joins::{TwoDicts, value_join};
use gq_base::Memory;
use gq_bits::{Marks, VECTOR};
use gq_filter::NodeColumn;
use gq_index::{RowsByNumber, number_of};
use gq_join::Sealed;
use gq_plan::Assignment;
use gq_same_texts::SameTexts;
use gq_sift::{Remembered, sift_among};
use gq_steps::{GroupSteps, PlanRun};
use std::alloc::Global;

/// An index is filled once so many times as many places were gone through as its build has rows:
/// before, a search that ends soon pays nothing for it.
const FILLED_AT: usize = 3;

/// So many places are tried one by one: to search for a value takes longer.
const SHORT: usize = 32;

/// The rows of a join's build, by the values of a property of a node that it keeps, and the property
/// of a node that stands to which these have to be equal. There is room for them from the start on;
/// they stand there once enough places were gone through.
#[derive(Drop)]
pub(crate) struct ValueIndex<'g> {
    pub(crate) asked: NodeColumn<'g>,
    pub(crate) own: NodeColumn<'g>,
    pub(crate) build: &'g Sealed,
    // Where both are texts of two dictionaries: what is asked for in the build's one.
    pub(crate) texts: Option<SameTexts<'g>>,
    pub(crate) places: RowsByNumber,
    pub(crate) stands: bool,
    // How many places the lists had that were opened.
    pub(crate) opened: usize,
}

impl ValueIndex<'_> {
    // The value that is asked for, as the build's cells have it. It takes no memory.
    fn value(&self, row: &Assignment) -> Option<i64>
        ensures { IsAsked self.now.texts (node_cell self.now.asked row.now) result }
    {
        let cell = self.asked.node_cell(row);
        match &self.texts {
            None => cell,
            Some(texts) => texts.turned(cell),
        }
    }

    // Which of a piece of the matches have the value that is asked for. It takes no memory.
    fn piece(&self, matches: &[u32], piece: u32, row: &Assignment) -> Marks
        ensures { IsFoundIn self.now matches.now piece row.now result }
    {
        places_of(&self.places, matches, self.value(row), piece)
    }

    /// A piece of the matches, from one on, before which none from that one on has the value that is
    /// asked for. It takes no memory.
    pub(crate) fn next_piece(&self, matches: &[u32], piece: u32, row: &Assignment) -> u32
        ensures { IsNotBefore self.now matches.now piece row.now result }
    {
        piece_from(&self.places, matches, self.value(row), piece)
    }

    // One more list of so many places is opened. It takes no memory, as there is room.
    fn open(&mut self, places: usize)
        requires { let h = self.old.build.now in
            place_of h.nodes self.old.own.node < length h.nodes }
        ensures { IsOpened self.old self.new }
    {
        if self.stands {
            return;
        }
        self.opened = self.opened.saturating_add(places);
        if self.opened / FILLED_AT < self.build.len() as usize {
            return;
        }
        if fill(&mut self.places, self.build, self.own) {
            self.places.sort();
            fill_texts(&mut self.texts);
            self.stands = true;
        }
    }
}

// Which of a piece of some rows have a value.
fn places_of(places: &RowsByNumber, rows: &[u32], value: Option<i64>, piece: u32) -> Marks
    ensures { IsFoundBy places.now rows.now value piece result }
{
    match value {
        None => Marks::none(),
        Some(value) => places.piece(number_of(value), rows, piece),
    }
}

// A piece of some rows, from one on, before which none from that one on has a value.
fn piece_from(places: &RowsByNumber, rows: &[u32], value: Option<i64>, piece: u32) -> u32
    ensures { IsNotBy places.now rows.now value piece result }
{
    match value {
        None => u32::MAX,
        Some(value) => places.next_piece(number_of(value), rows, piece),
    }
}

// Looks up once what the texts of one dictionary are in the other one, where there is room for it.
fn fill_texts(texts: &mut Option<SameTexts<'_>>)
    ensures { texts.new ≡ texts.old }
{
    match texts {
        None => {}
        Some(texts) => texts.fill(),
    }
}

// Puts the rows of a build beside the values of a property of a node that it keeps, where there is
// room for them.
fn fill(places: &mut RowsByNumber, build: &Sealed, own: NodeColumn<'_>) -> bool
    requires { place_of build.now.nodes own.node < length build.now.nodes }
    ensures { result ≡ true → AreKeys (numbers_in build.now own.entry) places.new }
{
    places.clear();
    for row in 0..build.len() {
        let node = build.node(row, own.node);
        match places.push(number_in(own.row_cell(node)), row) {
            Ok(()) => {}
            Err(_) => return false,
        }
    }
    true
}

/// A list of so many places is opened of the group at a depth, if it has an index.
pub(crate) fn open_at(indexes: &mut Vec<Option<ValueIndex<'_>>>, depth: usize, places: usize)
    requires { (t : ValueIndex) → slice_get indexes.old.items depth ≡ Some (Some t) → IsUsable t }
    ensures { AreOpened indexes.old.items indexes.new.items }
{
    match indexes.get_mut(depth) {
        None => {}
        Some(found) => match found {
            None => {}
            Some(index) => index.open(places),
        },
    }
}

/// The index of the group at a depth, if it has one that stands, where its list has so many places
/// that to look into it is worth while.
pub(crate) fn index_at<'i, 'g>(
    indexes: &'i [Option<ValueIndex<'g>>],
    depth: usize,
    places: usize,
) -> Option<&'i ValueIndex<'g>>
    ensures there { IfSome result (λ t. slice_get indexes.now depth ≡ Some (Some t.now)) }
    ensures stands { IfSome result (λ t. t.now.stands ≡ true) }
{
    if places <= SHORT {
        return None;
    }
    match indexes.get(depth) {
        None => None,
        Some(found) => match found {
            None => None,
            Some(index) => { if index.stands { Some(index) } else { None } }
        },
    }
}

/// As `sift`, of so many places of a piece. Where the group at a depth has an index, only the places
/// are tried at which the value stands that is asked for; else what is remembered of its list is
/// looked up.
pub(crate) fn sift_found(
    indexes: &[Option<ValueIndex<'_>>],
    remembered: &mut Vec<Option<Remembered>>,
    depth: usize,
    plan_run: &mut PlanRun<'_>,
    group: GroupSteps,
    matches: &[u32],
    piece: u32,
    count: u32,
    row: &mut Assignment,
    marks: &mut Marks,
)
    requires run { IsRun (run_of plan_run.old) }
    requires steps { IsRange (run_of plan_run.old) group }
    requires held { IsHeld (run_of plan_run.old) row.old (known (run_of plan_run.old) group.first) }
    requires matches { AreMatches (run_of plan_run.old) group.first row.old matches.now }
    requires count { count ≤ VECTOR }
    requires fits { piece * VECTOR + count < 2 ^ 32 }
    requires inside { let c = run_of plan_run.old in piece * VECTOR + count ≤ length (tries c.graph
        c.typed (built_at c group.first) (step_at c group.first) (before c row.old group.first)) }
    requires among { (t : ValueIndex) (marks : List Bool)
        → slice_get indexes.now depth ≡ Some (Some t) → t.stands ≡ true
        → IsFoundIn t matches.now piece row.old marks
        → IsAmong (run_of plan_run.old) group (piece * VECTOR) count row.old marks }
    requires own { IsOwn (run_of plan_run.old) group remembered.old.items depth }
    ensures sifted { IsSifted (run_of plan_run.old) group (piece * VECTOR) count row.old row.new
        marks.new }
    ensures own { IsOwn (run_of plan_run.old) group remembered.new.items depth }
    ensures others { (d : ℕ) → d ≢ depth →
        slice_get remembered.new.items d ≡ slice_get remembered.old.items d }
    ensures same { plan_run.new ≡ plan_run.old }
{
    match index_at(indexes, depth, matches.len()) {
        None => sift_piece(
            remembered, depth, plan_run, group, matches, piece, count, row, marks,
        ),
        Some(index) => {
            *marks = index.piece(matches, piece, row);
            sift_among(plan_run, group, matches, piece * VECTOR, count, row, marks);
        }
    }
}

/// The index of each group that has one, and nothing where no group has one. The memory for it is
/// taken here; where there is none, no group has one.
pub(crate) fn value_indexes<'g>(
    alloc: Global,
    plan_run: &PlanRun<'g>,
    groups: &[GroupSteps],
) -> Vec<Option<ValueIndex<'g>>>
    requires { IsRun (run_of plan_run.now) }
    ensures { AreIndexed (run_of plan_run.now) groups.now result.items }
{
    let indexes = each_index(alloc, plan_run, groups);
    if has_index(indexes.as_slice()) {
        indexes
    } else {
        Vec::new(alloc)
    }
}

// Whether a group has an index.
fn has_index(indexes: &[Option<ValueIndex<'_>>]) -> bool {
    for index in indexes {
        if index.is_some() {
            return true;
        }
    }
    false
}

// The index of each group, if it has one.
fn each_index<'g>(
    alloc: Global,
    plan_run: &PlanRun<'g>,
    groups: &[GroupSteps],
) -> Vec<Option<ValueIndex<'g>>>
    requires { IsRun (run_of plan_run.now) }
    ensures { AreIndexed (run_of plan_run.now) groups.now result.items }
{
    let mut indexes = Vec::new(alloc);
    for group in groups {
        let index = value_index(alloc, plan_run, *group);
        match indexes.push(index) {
            Ok(()) => {}
            Err(_) => return Vec::new(alloc),
        }
    }
    indexes
}

// The index of a group, if it is a join by a value and there is memory for it.
fn value_index<'g>(
    alloc: Global,
    plan_run: &PlanRun<'g>,
    group: GroupSteps,
) -> Option<ValueIndex<'g>>
    requires { IsRun (run_of plan_run.now) }
    ensures { IfSome result (IsIndexed (run_of plan_run.now) group) }
{
    let join = value_join(plan_run, group)?;
    let rows = join.build.len() as usize;
    match RowsByNumber::with_room(alloc, rows) {
        Err(_) => None,
        Ok(places) => match same_texts(alloc, join.asks.dicts, rows) {
            Err(_) => None,
            Ok(texts) => Some(ValueIndex {
                asked: join.asks.asked,
                own: join.asks.own,
                build: join.build,
                texts,
                places,
                stands: false,
                opened: 0,
            }),
        },
    }
}

// What texts of one dictionary are in another one, if there are two. Where the one has no more texts
// than the build has rows, each is looked up once.
fn same_texts<'g>(
    alloc: Global,
    dicts: Option<TwoDicts<'g>>,
    rows: usize,
) -> Result<Option<SameTexts<'g>>, Memory>
    ensures { IfOk result (λ texts. texts ≡ dicts_of dicts.entry) }
{
    match dicts {
        None => Ok(None),
        Some(dicts) => {
            let texts = SameTexts::with_room(alloc, dicts.from, dicts.to, rows)?;
            Ok(Some(texts))
        }
    }
}

// The number of a value, if there is one.
fn number_in(value: Option<i64>) -> Option<u64>
    ensures { result ≡ number_in value }
{
    match value {
        None => None,
        Some(value) => Some(number_of(value)),
    }
}
