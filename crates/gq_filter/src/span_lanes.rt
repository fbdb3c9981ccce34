//! The lanes of rows that follow one another, gathered from their columns.
ghost use Rattle.std.specs.Prelude.{◌≡◌, ◌≤◌, ◌-◌, slice_get};
ghost use Rattle.gq_bits.specs.declared.TheConstants.{VECTOR};
ghost use Rattle.gq_filter.specs.steps.SpanLanes.{HaveRows};

use crate::lanes::{Lane, Lanes};
use crate::source::Feed;
use gq_bits::{Marks, VECTOR};

/// The lanes of the rows from `low` up to, but without, `high`, each gathered when it is asked for.
#[derive(Clone, Copy)]
pub(crate) struct SpanLanes<'r> {
    pub(crate) feeds: &'r [Feed<'r>],
    pub(crate) low: u32,
    pub(crate) high: u32,
    ghost ordered: { low ≤ high },
    ghost few: { high - low ≤ VECTOR },
    ghost inside: { HaveRows high feeds.now },
}

impl Lanes for SpanLanes<'_> {
    ghost use Rattle.std.specs.Prelude.{slice_get};
    ghost use Rattle.gq_filter.specs.steps.SpanLanes.{span_cell};

    ghost cell_at = { λ l place lane. span_cell l.low l.high (slice_get l.feeds.now lane) place };

    fn lane(&self, lane: u32) -> Lane {
        let mut cells = [0; VECTOR as usize];
        let mut known = Marks::none();
        match feed_at(self.feeds, lane) {
            None => {}
            Some(feed) => {
                feed.property
                    .column()
                    .gather_span(self.low, self.high, &mut cells, &mut known);
            }
        }
        Lane { cells, known }
    }
}

/// The feed of a lane, where there is one of that number.
pub(crate) fn feed_at<'r>(feeds: &[Feed<'r>], lane: u32) -> Option<Feed<'r>>
    ensures { result ≡ slice_get feeds.now lane }
{
    feeds.get(lane as usize).copied()
}
