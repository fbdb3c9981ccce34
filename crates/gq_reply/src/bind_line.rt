//! The line of a query that the binder refuses.

ghost use Rattle.std.specs.Prelude.{◌≡◌, ◌++◌};
ghost use Rattle.gq_io.specs.Causes.{HasCause};
ghost use Rattle.gq_io.specs.Outside.{Writes};
ghost use Rattle.gq_render.specs.Pieces.{piece_text};
ghost use Rattle.gq_reply.specs.BindLines.{bind_line, subject_text};
ghost use Rattle.gq_reply.specs.steps.BindLines.{bind_tone};

use crate::error_line::write_error;
use gq_binder::BindRefusal;
use gq_io::{Failed, Sink};
use gq_render::Piece;
use gq_session::Tone;

// What a refusal is about, and what goes before it.
fn subject_of(refusal: &BindRefusal) -> (&'static str, Piece<'_>)
    ensures { result.0.now ++ piece_text result.1 ≡ subject_text refusal.now }
{
    match refusal {
        BindRefusal::UnknownVariable { name } => (" ", Piece::Name(name.as_str())),
        BindRefusal::VariableConflict { name } => (" ", Piece::Name(name.as_str())),
        BindRefusal::RelationshipRepeated { name } => (" ", Piece::Name(name.as_str())),
        BindRefusal::ColumnRepeated { name } => (" ", Piece::Name(name.as_str())),
        BindRefusal::OrderOutOfScope { item } => (" ", Piece::Number(*item as usize)),
        BindRefusal::AmbiguousOrderName { name } => (" ", Piece::Name(name.as_str())),
        BindRefusal::UnknownFunction { name } => (" ", Piece::Name(name.as_str())),
        BindRefusal::ArgumentCount { name } => (" ", Piece::Name(name.as_str())),
        _ => ("", Piece::Plain("")),
    }
}

/// Writes the line of a refusal. After `Failed` the sink took some front of that line.
pub fn write_bind_refusal<O: Sink>(out: &mut O, refusal: &BindRefusal) -> Result<(), Failed>
    ensures bytes { Writes (O.taken out.old) (O.taken out.new) (bind_line refusal.now) result }
    ensures cause { HasCause (O.faults out.old) (O.faults out.new) result }
{
    let (before, about) = subject_of(refusal);
    write_error(out, refusal.name(), before, about)
}

/// The tone of a reply by the line of a refusal.
pub fn tone_of(refusal: &BindRefusal) -> Tone
    ensures { result ≡ bind_tone refusal.now }
{
    match refusal {
        BindRefusal::Memory(memory) => Tone::Memory(*memory),
        _ => Tone::Refused,
    }
}
