//! Lines made of pieces, which are put one after another and nowhere gathered.

ghost use Rattle.std.specs.Prelude.{flat_map};
ghost use Rattle.gq_io.specs.Causes.{HasCause};
ghost use Rattle.gq_io.specs.Outside.{Writes};
ghost use Rattle.gq_io.specs.Putting.{Puts};
ghost use Rattle.gq_render.specs.Pieces.{indent, piece_text};
ghost use Rattle.gq_render.specs.Texts.{line};

use crate::name::put_name;
use crate::types::put_type;
use crate::value::put_count;
use gq_base::Catalog;
use gq_io::{Batch, Failed, Sink};

/// A piece of a line.
#[derive(Clone, Copy)]
pub enum Piece<'t> {
    /// A text as it is.
    Plain(&'t str),
    /// A name, written as in headers.
    Name(&'t str),
    /// A number in decimal.
    Number(usize),
    /// The type of the relationship table of this number.
    RelType(&'t Catalog, u32),
    /// Two spaces for each level.
    Indent(u32),
}

fn put_indent<O: Sink>(batch: &mut Batch, out: &mut O, level: u32) -> Result<(), Failed>
    ensures bytes { Puts (O.taken out.old) (O.taken out.new) batch.old batch.new
        (indent level) result }
    ensures cause { HasCause (O.faults out.old) (O.faults out.new) result }
{
    for _at in 0..level {
        batch.put(out, b"  ")?;
    }
    Ok(())
}

fn put_piece<O: Sink>(batch: &mut Batch, out: &mut O, piece: Piece<'_>) -> Result<(), Failed>
    ensures bytes { Puts (O.taken out.old) (O.taken out.new) batch.old batch.new
        (piece_text piece.entry) result }
    ensures cause { HasCause (O.faults out.old) (O.faults out.new) result }
{
    match piece {
        Piece::Plain(text) => batch.put(out, text.as_bytes()),
        Piece::Name(name) => put_name(batch, out, name),
        Piece::Indent(level) => put_indent(batch, out, level),
        Piece::Number(number) => put_count(batch, out, number),
        Piece::RelType(catalog, table) => put_type(batch, out, catalog, table),
    }
}

/// Puts pieces into a batch, one after another. It takes no memory. After `Failed` the sink took some front of what had
/// waited and of their text.
pub fn put_pieces<O: Sink>(
    batch: &mut Batch,
    out: &mut O,
    pieces: &[Piece<'_>],
) -> Result<(), Failed>
    ensures bytes { Puts (O.taken out.old) (O.taken out.new) batch.old batch.new
        (flat_map piece_text pieces.now) result }
    ensures cause { HasCause (O.faults out.old) (O.faults out.new) result }
{
    for piece in pieces {
        put_piece(batch, out, *piece)?;
    }
    Ok(())
}

/// Puts a line of pieces into a batch. After `Failed` the sink took some front of what had waited and of that line.
#[tactic(auto, using(crate::proofs::Chains::both_put, crate::proofs::Chains::one_broke))]
pub fn put_line<O: Sink>(batch: &mut Batch, out: &mut O, pieces: &[Piece<'_>]) -> Result<(), Failed>
    ensures bytes { Puts (O.taken out.old) (O.taken out.new) batch.old batch.new
        (line (flat_map piece_text pieces.now)) result }
    ensures cause { HasCause (O.faults out.old) (O.faults out.new) result }
{
    put_pieces(batch, out, pieces)?;
    batch.put(out, b"\n")
}

/// Writes a line of pieces. After `Failed` the sink took some front of that line.
pub fn write_line<O: Sink>(out: &mut O, pieces: &[Piece<'_>]) -> Result<(), Failed>
    ensures bytes { Writes (O.taken out.old) (O.taken out.new)
        (line (flat_map piece_text pieces.now)) result }
    ensures cause { HasCause (O.faults out.old) (O.faults out.new) result }
{
    let mut batch = Batch::new();
    put_line(&mut batch, out, pieces)?;
    batch.flush(out)
}
