//! The node where a walk of a trail ends.
ghost use Rattle.std.specs.Prelude.{◌≡◌, ◌<◌, length, IfOk, Some};
ghost use Rattle.gq_plan.specs.Allowed.{at_same};
ghost use Rattle.gq_trails.specs.steps.Ends.{AreEndsOf, may_end, settled};

use gq_base::{Memory, NodeId};
use gq_ends::TrailEnd;
use gq_expr::Assigned;
use gq_outer::WideRow;
use gq_plan::TrailPart;
use gq_store::Graph;
use std::alloc::Global;

/// The other ends of trails, trail by trail.
pub(crate) fn trail_ends<'g>(
    alloc: Global,
    graph: &'g Graph,
    parts: &'g [TrailPart],
) -> Result<Vec<TrailEnd<'g>>, Memory>
    ensures { IfOk result (λ ends. AreEndsOf graph.now parts.now ends.items) }
{
    let mut ends = Vec::with_capacity(alloc, parts.len())?;
    'parts: for part in parts {
        ends.push(TrailEnd::new(alloc, graph, part)?)?;
    }
    Ok(ends)
}

/// Whether a walk of a trail may end at a node: where the other end is bound, that has to be the
/// node; else the node has to be as the trail asks, and is put into the row.
#[inline(always)]
pub(crate) fn arrives(
    part: &TrailPart,
    end: &mut TrailEnd<'_>,
    node: NodeId,
    row: &mut WideRow,
) -> bool
    requires part { end.old.part ≡ part.now }
    requires within { part.now.to < length row.old.nodes }
    ensures may { result ≡ may_end end.old.graph part.now row.old node }
    ensures row { row.new ≡ settled part.now row.old node }
    ensures same { end.new ≡ end.old }
{
    if part.both {
        return is_at(row.node(part.to), node);
    }
    row.set_node(part.to, Some(node));
    end.fits(node)
}

fn is_at(node: Option<NodeId>, end: NodeId) -> bool
    ensures { result ≡ at_same node (Some end) }
{
    match node {
        None => false,
        Some(node) => node == end,
    }
}
