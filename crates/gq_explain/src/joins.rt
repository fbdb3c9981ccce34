//! The line of a join: its keys.
ghost use Rattle.std.specs.Prelude.{◌++◌, codes, flat_map};
ghost use Rattle.gq_io.specs.Causes.{HasCause};
ghost use Rattle.gq_io.specs.Putting.{Puts};
ghost use Rattle.gq_explain.specs.Plans.{keys_text};
ghost use Rattle.gq_explain.specs.Plans.{join_line, next_key};

use crate::naming::{Naming, name_of};
use gq_io::{Batch, Failed, Sink};
use gq_render::{Piece, put_pieces};

fn put_next_key<O: Sink>(
    batch: &mut Batch,
    out: &mut O,
    naming: &Naming<'_>,
    key: u32,
) -> Result<(), Failed>
    ensures bytes { Puts (O.taken out.old) (O.taken out.new) batch.old batch.new
        (next_key naming.now.bound.now naming.now.catalog.now naming.now.typed.now key) result }
    ensures cause { HasCause (O.faults out.old) (O.faults out.new) result }
{
    let pieces = [
        Piece::Plain(", "),
        Piece::Name(name_of(&naming.bound.node_names, key)),
    ];
    put_pieces(batch, out, &pieces)
}

fn put_other_keys<O: Sink>(
    batch: &mut Batch,
    out: &mut O,
    naming: &Naming<'_>,
    keys: &[u32],
) -> Result<(), Failed>
    ensures bytes { Puts (O.taken out.old) (O.taken out.new) batch.old batch.new
        (flat_map (next_key naming.now.bound.now naming.now.catalog.now naming.now.typed.now)
        keys.now) result }
    ensures cause { HasCause (O.faults out.old) (O.faults out.new) result }
{
    for key in keys {
        put_next_key(batch, out, naming, *key)?;
    }
    Ok(())
}

fn put_keys<O: Sink>(
    batch: &mut Batch,
    out: &mut O,
    naming: &Naming<'_>,
    keys: &[u32],
) -> Result<(), Failed>
    ensures bytes { Puts (O.taken out.old) (O.taken out.new) batch.old batch.new
        (keys_text naming.now.bound.now naming.now.catalog.now naming.now.typed.now
        keys.now) result }
    ensures cause { HasCause (O.faults out.old) (O.faults out.new) result }
{
    let [first, others @ ..] = keys else {
        return Ok(());
    };
    let pieces = [
        Piece::Plain(" on "),
        Piece::Name(name_of(&naming.bound.node_names, *first)),
    ];
    put_pieces(batch, out, &pieces)?;
    put_other_keys(batch, out, naming, others)
}

// Puts the keys of a join, and the end of its line.
#[tactic(auto, using(gq_render::proofs::Chains::both_put, gq_render::proofs::Chains::one_broke))]
fn put_keys_line<O: Sink>(
    batch: &mut Batch,
    out: &mut O,
    naming: &Naming<'_>,
    keys: &[u32],
) -> Result<(), Failed>
    ensures bytes { Puts (O.taken out.old) (O.taken out.new) batch.old batch.new
        (keys_text naming.now.bound.now naming.now.catalog.now naming.now.typed.now keys.now
        ++ codes "\n") result }
    ensures cause { HasCause (O.faults out.old) (O.faults out.new) result }
{
    put_keys(batch, out, naming, keys)?;
    batch.put(out, b"\n")
}

pub(crate) fn put_join<O: Sink>(
    batch: &mut Batch,
    out: &mut O,
    naming: &Naming<'_>,
    level: u32,
    keys: &[u32],
) -> Result<(), Failed>
    ensures bytes { Puts (O.taken out.old) (O.taken out.new) batch.old batch.new
        (join_line naming.now.bound.now naming.now.catalog.now naming.now.typed.now
        level keys.now) result }
    ensures cause { HasCause (O.faults out.old) (O.faults out.new) result }
{
    let pieces = [Piece::Indent(level), Piece::Plain("join")];
    put_pieces(batch, out, &pieces)?;
    put_keys_line(batch, out, naming, keys)
}
