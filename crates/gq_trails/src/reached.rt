//! A trail that is gone through by its ends: the row at each node to which it leads, once.
ghost use Rattle.std.specs.Prelude.{◌≡◌, ◌≤◌, ◌+◌, ◌∷◌, [], false, length, true, IfOk, None};
ghost use Rattle.std.specs.Prelude.{if◌then◌else◌};
ghost use Rattle.gq_plan.specs.Meaning.{Partial};
ghost use Rattle.gq_trails.specs.Continued.{rows_at_ends};
ghost use Rattle.gq_trails.specs.Trekking.{CanTrek, HasLength};
ghost use Rattle.gq_trails.specs.steps.Chained.{barred_behind};
ghost use Rattle.gq_trails.specs.steps.Walked.{walked_of};
ghost use Rattle.gq_trails.specs.steps.Reached.{AreEnds, AreSameEnds, GoesToEnd, IsSeen, left_from};
ghost use Rattle.gq_outer.specs.Rows.{item_at};

use crate::ends::arrives;
use crate::taken::Taken;
use crate::trails::Trails;
use crate::trek::take_patterns;
use gq_base::{Memory, NodeId};
use gq_ends::TrailEnd;
use gq_expr::Assigned;
use gq_hops::Reacher;
use gq_outer::WideRow;
use gq_plan::{TrailPart, TypedRel};
use gq_store::Graph;
use std::alloc::Global;

/// The rows at the ends of one trail.
#[derive(Drop)]
pub(crate) struct Ends<'g> {
    pub(crate) graph: &'g Graph,
    pub(crate) part: &'g TrailPart,
    pub(crate) end: TrailEnd<'g>,
    pub(crate) reacher: Reacher<'g>,
    // What is bound, and behind the first end that was reached the node there too.
    pub(crate) row: WideRow,
    // Whether the row is that of an end which was reached.
    pub(crate) stands: bool,
    // What the trail may not take.
    pub(crate) taken: Taken,
}

impl<'g> Ends<'g> {
    /// The ends of a trail, of which none is owed, and an empty row of so many variables.
    pub(crate) fn new(
        alloc: Global,
        graph: &'g Graph,
        part: &'g TrailPart,
        nodes: u32,
        rels: u32,
    ) -> Result<Ends<'g>, Memory>
        requires { HasLength part.now }
        ensures ends { IfOk result AreEnds }
        ensures graph { IfOk result (λ e. e.graph.now ≡ graph.now) }
        ensures part { IfOk result (λ e. e.part.now ≡ part.now) }
        ensures nodes { IfOk result (λ e. length e.row.nodes ≡ nodes) }
        ensures rels { IfOk result (λ e. length e.row.rels ≡ rels) }
    {
        Ok(Ends {
            graph,
            part,
            end: TrailEnd::new(alloc, graph, part)?,
            reacher: Reacher::new(alloc, graph, part)?,
            row: WideRow::new(alloc, nodes, rels)?,
            stands: false,
            taken: Taken::new(alloc)?,
        })
    }

    /// From now on the rows at the ends to which the trail leads from a row are owed, without the
    /// relationships that the patterns of its clause have there and that walks of it took.
    pub(crate) fn begin(&mut self, base: &WideRow, rels: &[TypedRel], walked: &Trails<'_>)
        requires ends { AreEnds self.old }
        requires walks { CanTrek self.old.graph.now (self.old.part.now ∷ []) base.now }
        requires nodes { length self.old.row.nodes ≡ length base.now.nodes }
        requires rels { length self.old.row.rels ≡ length base.now.rels }
        requires few { length walked.now.parts + length rels.now ≤ 24 }
        requires stands { walked.now.standing ≡ true }
        ensures owed { (a : Partial) → IsSeen base.now a → left_from self.new a
            ≡ rows_at_ends self.old.graph.now
            (barred_behind rels.now (walked_of walked.now) base.now.rels) self.old.part.now a }
        ensures row { self.new.row ≡ base.now }
        ensures stands { self.new.stands ≡ false }
        ensures ends { AreEnds self.new }
        ensures same { AreSameEnds self.old self.new }
    {
        self.graph.stands_valid();
        self.row.copy_from(base);
        self.stands = false;
        self.taken.clear();
        walked.take(&mut self.taken, self.part.clause);
        take_patterns(&mut self.taken, rels, base, self.part.clause);
        match base.node(self.part.from) {
            None => (),
            Some(start) => {
                let used = self.taken.as_slice();
                match known_end(self.part, base) {
                    None => self.reacher.begin(start, used),
                    Some(end) => self.reacher.begin_to(start, used, end),
                }
            }
        }
    }

    /// Goes on to the next row, or answers false where none is owed.
    pub(crate) fn advance(&mut self) -> bool
        requires { AreEnds self.old }
        ensures goes { GoesToEnd self.old self.new result }
        ensures stands { self.new.stands ≡ result }
        ensures ends { AreEnds self.new }
        ensures same { AreSameEnds self.old self.new }
    {
        self.stands = self.find_next();
        self.stands
    }

    // Goes on to the next row, and answers whether there is one.
    fn find_next(&mut self) -> bool
        requires { AreEnds self.old }
        ensures goes { GoesToEnd self.old self.new result }
        ensures ends { AreEnds self.new }
        ensures same { AreSameEnds self.old self.new }
    {
        'ends: while let Some(node) = self.reacher.next() {
            if arrives(self.part, &mut self.end, node, &mut self.row) {
                return true;
            }
        }
        false
    }
}

// The other end of a trail, where it is bound in a row.
fn known_end(part: &TrailPart, row: &WideRow) -> Option<NodeId>
    ensures { result ≡ (if part.now.both then item_at row.now.nodes part.now.to else None) }
{
    if part.both { row.node(part.to) } else { None }
}
