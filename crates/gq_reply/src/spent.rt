//! What the pipelines of a query spent, in text.

ghost use Rattle.gq_io.specs.Causes.{HasCause};
ghost use Rattle.gq_io.specs.Outside.{Writes};
ghost use Rattle.gq_io.specs.Putting.{Puts};
ghost use Rattle.gq_reply.specs.ReplyTexts.{spent_line, spent_text};

use gq_base::List;
use gq_io::{Batch, Failed, Sink};
use gq_pipe::Spent;
use gq_render::{Piece, put_line};

// Puts the line of the pipeline of this number.
fn put_spent<O: Sink>(
    batch: &mut Batch,
    out: &mut O,
    number: usize,
    spent: &Spent,
) -> Result<(), Failed>
    ensures bytes { Puts (O.taken out.old) (O.taken out.new) batch.old batch.new
        (spent_line number spent.now) result }
    ensures cause { HasCause (O.faults out.old) (O.faults out.new) result }
{
    let pieces = [
        Piece::Plain("pipeline "),
        Piece::Number(number),
        Piece::Plain(" chunks "),
        Piece::Number(spent.chunks() as usize),
        Piece::Plain(" columns "),
        Piece::Number(spent.columns() as usize),
    ];
    put_line(batch, out, &pieces)
}

// Puts the lines of pipelines, numbered from 1.
fn put_all<O: Sink>(batch: &mut Batch, out: &mut O, spent: &[Spent]) -> Result<(), Failed>
    ensures bytes { Puts (O.taken out.old) (O.taken out.new) batch.old batch.new
        (spent_text 1 spent.now) result }
    ensures cause { HasCause (O.faults out.old) (O.faults out.new) result }
{
    for index in 0..spent.len() {
        put_spent(batch, out, index + 1, &spent[index])?;
    }
    Ok(())
}

/// Writes a line for each pipeline, numbered from 1: how many chunks it handed out, and how many
/// columns of the pool it held. It takes no memory. After `Failed` the sink took some front of that
/// text.
pub fn write_spent<O: Sink>(out: &mut O, spent: &List<Spent>) -> Result<(), Failed>
    ensures bytes { Writes (O.taken out.old) (O.taken out.new) (spent_text 1 spent.now) result }
    ensures cause { HasCause (O.faults out.old) (O.faults out.new) result }
{
    let mut batch = Batch::new();
    put_all(&mut batch, out, spent.as_slice())?;
    batch.flush(out)
}
