//! Which way the trails of a query lead, as they are written.

ghost use Rattle.std.specs.Prelude.{◌≡◌, ◌++◌, IfOk, flat_map};
ghost use Rattle.gq_law_cuts.specs.Cuts.{leads_right};
ghost use Rattle.gq_reply.specs.Arrows.{hop_arrows, path_arrows, trail_arrows};

use gq_base::{List, Memory};
use gq_syntax::{Arrow, Clause, Hop, Path};
use std::alloc::Global;

/// Whether the arrow of each trail of MATCH clauses leads right, in text order.
pub(crate) fn trail_arrows(alloc: Global, clauses: &[Clause]) -> Result<List<bool>, Memory>
    ensures { IfOk result (λ arrows. arrows ≡ trail_arrows clauses.now) }
{
    let mut arrows = List::new(alloc);
    for clause in clauses {
        push_paths(&mut arrows, clause.paths.as_slice())?;
    }
    Ok(arrows)
}

fn push_paths(arrows: &mut List<bool>, paths: &[Path]) -> Result<(), Memory>
    ensures { IfOk result (λ _. arrows.new ≡ arrows.old ++ flat_map path_arrows paths.now) }
{
    for path in paths {
        push_hops(arrows, path.hops.as_slice())?;
    }
    Ok(())
}

fn push_hops(arrows: &mut List<bool>, hops: &[Hop]) -> Result<(), Memory>
    ensures { IfOk result (λ _. arrows.new ≡ arrows.old ++ flat_map hop_arrows hops.now) }
{
    for hop in hops {
        push_hop(arrows, hop)?;
    }
    Ok(())
}

fn push_hop(arrows: &mut List<bool>, hop: &Hop) -> Result<(), Memory>
    ensures { IfOk result (λ _. arrows.new ≡ arrows.old ++ hop_arrows hop.now) }
{
    if hop.rel.trail.is_none() {
        return Ok(());
    }
    arrows.push(is_right(hop.rel.arrow))
}

fn is_right(arrow: Arrow) -> bool
    ensures { result ≡ leads_right arrow }
{
    match arrow {
        Arrow::Right => true,
        Arrow::Left => false,
        Arrow::Either => false,
    }
}
