//! The tone of a reply that was written.

ghost use Rattle.std.specs.Prelude.{◌≡◌};
ghost use Rattle.gq_reply.specs.steps.Steps.{Replied, WantsMemory, toned};
ghost use Rattle.gq_session.specs.Sessions.{span_of};

use crate::error_line::write_error;
use gq_base::Memory;
use gq_io::{Failed, Sink};
use gq_render::Piece;
use gq_session::Tone;

/// The tone of a reply that was written, or the failure to write it.
pub fn toned(written: Result<(), Failed>, tone: Tone) -> Result<Tone, Failed>
    ensures { result ≡ toned written tone }
{
    match written {
        Ok(()) => Ok(tone),
        Err(Failed) => Err(Failed),
    }
}

/// Replies with the line for want of memory, whose tone tells the cause.
pub fn reply_memory<O: Sink>(out: &mut O, memory: Memory) -> Result<Tone, Failed>
    ensures { Replied (WantsMemory memory) (span_of O.taken O.faults out.old out.new) result }
{
    toned(
        write_error(out, "Memory", "", Piece::Plain("")),
        Tone::Memory(memory),
    )
}
