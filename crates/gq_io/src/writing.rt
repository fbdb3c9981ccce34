//! The write of a whole piece.

ghost use Rattle.gq_io.specs.Causes.{HasCause};
ghost use Rattle.gq_io.specs.Outside.{Writes};

use crate::{Failed, Sink};

/// Writes the whole piece, or fails after some front of it.
pub fn write_all<O: Sink>(out: &mut O, piece: &[u8]) -> Result<(), Failed>
    ensures bytes { Writes (O.taken out.old) (O.taken out.new) piece.now result }
    ensures cause { HasCause (O.faults out.old) (O.faults out.new) result }
{
    let mut at = 0;
    while at < piece.len() {
        let count = out.write(&piece[at..])?;
        at += count;
    }
    Ok(())
}
