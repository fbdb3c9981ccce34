//! Conditions on a relationship, decided by the place at which it stands.
ghost use Rattle.std.specs.Prelude.{◌≡◌, ◌+◌, ◌-◌, ◌<◌, ◌≤◌, ℕ, IfSome, IsTrue, false, length};
ghost use Rattle.std.specs.Prelude.{true};
ghost use Rattle.gq_bits.specs.Places.{is_marked};
ghost use Rattle.gq_filter.specs.Placed.{Passes, Refuses};
ghost use Rattle.gq_filter.specs.steps.Placing.{ArePlaced, IsPlaced, IsPlacementOf, IsTestOf};

use crate::cells::holds_at;
use crate::lane_test::LaneTest;
use crate::row_lists::ColumnCells;
use crate::source::Feed;
use crate::spans::keep_span;
use gq_bits::{Marks, VECTOR};
use gq_plan::Variable;

/// A test of lanes of one relationship variable. Its cells stand by place, so that it is asked
/// without the load number there.
#[derive(Clone, Copy)]
pub struct PlacedTest<'r> {
    pub(crate) test: &'r LaneTest,
    pub(crate) feeds: &'r [Feed<'r>],
    // So many places have cells.
    pub(crate) places: u32,
}

impl PlacedTest<'_> {
    /// Whether the relationship at a place may pass; if not, it is refused.
    pub fn may_pass(&self, place: u32) -> bool
        ensures refused { result ≡ false → Refuses self.now place }
        ensures passes { result ≡ true → place < self.now.places → Passes self.now place }
    {
        if place >= self.places {
            return true;
        }
        let cells = ColumnCells {
            feeds: self.feeds,
            row: place,
        };
        holds_at(self.test, &cells)
    }

    /// The end of so many places from one on, if all of them have cells: each tells whether it passes.
    pub fn end_of(&self, low: u32, count: u32) -> Option<u32>
        ensures { IfSome result (λ high. (high ≡ low + count) × (high ≤ self.now.places)) }
    {
        match low.checked_add(count) {
            None => None,
            Some(high) => {
                if high > self.places {
                    return None;
                }
                Some(high)
            }
        }
    }

    /// Of the marked ones of the places from one on to before another, which have cells, keeps those
    /// that pass.
    pub fn keep(&self, low: u32, high: u32, marks: &mut Marks)
        requires ordered { low ≤ high }
        requires few { high - low ≤ VECTOR }
        requires inside { high ≤ self.now.places }
        requires within { (k : ℕ) → high - low ≤ k → is_marked marks.old k ≡ false }
        ensures whole { length marks.new ≡ VECTOR }
        ensures kept { (k : ℕ) → is_marked marks.new k ≡ true →
            (is_marked marks.old k ≡ true) × Passes self.now (low + k) }
        ensures dropped { (k : ℕ) → is_marked marks.old k ≡ true → is_marked marks.new k ≡ false →
            Refuses self.now (low + k) }
    {
        keep_span(self.test, self.feeds, low, high - low, marks);
        let _whole = marks.word(0);
    }

    /// Whether the relationship at a place, if it may pass, passes.
    pub fn tells(&self, place: u32) -> bool
        ensures { result ≡ true → place < self.now.places }
    {
        place < self.places
    }
}

/// The one relationship variable of a test's lanes, and how many places have cells in each of them.
#[derive(Clone, Copy)]
pub(crate) struct Placement {
    rel: u32,
    places: u32,
}

/// That of these lanes, if all are of one relationship variable.
pub(crate) fn placement_of(feeds: &[Feed<'_>]) -> Option<Placement>
    ensures { IfSome result (IsPlacementOf feeds.now) }
{
    let first = feeds.first()?;
    let Variable::Rel(rel) = first.variable else {
        return None;
    };
    let places = first.property.column().len();
    if !are_placed(feeds, rel, places) {
        return None;
    }
    Some(Placement { rel, places })
}

/// A test of lanes, if it is known of them that all are of this relationship variable.
pub(crate) fn placed_test<'r>(
    test: &'r LaneTest,
    feeds: &'r [Feed<'r>],
    placement: Option<Placement>,
    rel: u32,
) -> Option<PlacedTest<'r>>
    requires { IfSome placement (IsPlacementOf feeds.now) }
    ensures { IfSome result (IsTestOf test.now feeds.now rel) }
{
    match placement {
        None => None,
        Some(placement) => placed_by(test, feeds, placement, rel),
    }
}

// The same where all are of one relationship variable.
fn placed_by<'r>(
    test: &'r LaneTest,
    feeds: &'r [Feed<'r>],
    placement: Placement,
    rel: u32,
) -> Option<PlacedTest<'r>>
    requires { IsPlacementOf feeds.now placement }
    ensures { IfSome result (IsTestOf test.now feeds.now rel) }
{
    if !is_rel(placement.rel, rel) {
        return None;
    }
    Some(PlacedTest {
        test,
        feeds,
        places: placement.places,
    })
}

// Whether two relationship variables are the same one.
fn is_rel(own: u32, rel: u32) -> bool
    ensures { IsTrue result → own ≡ rel }
{
    own == rel
}

// Whether each feed is of a relationship variable, and its column has so many places.
fn are_placed(feeds: &[Feed<'_>], rel: u32, places: u32) -> bool
    ensures { IsTrue result → ArePlaced rel places feeds.now }
{
    for feed in feeds {
        if !is_placed(feed, rel, places) {
            return false;
        }
    }
    true
}

fn is_placed(feed: &Feed<'_>, rel: u32, places: u32) -> bool
    ensures { IsTrue result → IsPlaced rel places feed.now }
{
    match feed.variable {
        Variable::Node(_) => false,
        Variable::Rel(own) => own == rel && places <= feed.property.column().len(),
    }
}
