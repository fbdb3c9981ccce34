//! The line that says which value a parameter has.

ghost use Rattle.gq_base.specs.Values.{literal_val};
ghost use Rattle.gq_io.specs.Causes.{HasCause};
ghost use Rattle.gq_io.specs.Outside.{Writes};
ghost use Rattle.gq_io.specs.Putting.{Puts};
ghost use Rattle.gq_render.specs.Texts.{param_line};

use crate::pieces::{Piece, put_pieces};
use crate::value::put_property;
use gq_base::Literal;
use gq_io::{Batch, Failed, Sink};

fn put_param<O: Sink>(
    batch: &mut Batch,
    out: &mut O,
    name: &str,
    value: &Literal,
) -> Result<(), Failed>
    ensures bytes { Puts (O.taken out.old) (O.taken out.new) batch.old batch.new
        (param_line name.now (literal_val value.now)) result }
    ensures cause { HasCause (O.faults out.old) (O.faults out.new) result }
{
    let front = [Piece::Plain("param "), Piece::Name(name), Piece::Plain(" ")];
    put_pieces(batch, out, &front)?;
    put_property(batch, out, value.value())?;
    batch.put(out, b"\n")
}

/// Writes the line of a parameter: its name as `write_name` writes it, and its value as
/// `write_value` does. After `Failed` the sink took some front of that text.
pub fn write_param<O: Sink>(out: &mut O, name: &str, value: &Literal) -> Result<(), Failed>
    ensures bytes { Writes (O.taken out.old) (O.taken out.new)
        (param_line name.now (literal_val value.now)) result }
    ensures cause { HasCause (O.faults out.old) (O.faults out.new) result }
{
    let mut batch = Batch::new();
    put_param(&mut batch, out, name, value)?;
    batch.flush(out)
}
