//! The line of a statement that has no other reply.

ghost use Rattle.std.specs.Prelude.{◌++◌, codes, decimal};
ghost use Rattle.gq_io.specs.Causes.{HasCause};
ghost use Rattle.gq_io.specs.Outside.{Writes};
ghost use Rattle.gq_render.specs.Pieces.{piece_text};
ghost use Rattle.gq_render.specs.Texts.{name_text};
ghost use Rattle.gq_reply.specs.ErrorLines.{error_line};

use gq_base::Text;
use gq_io::{Failed, Sink};
use gq_render::{Piece, write_line};

/// Writes the line that says what went wrong, and behind these words what it is about. After
/// `Failed` the sink took some front of that line.
pub fn write_error<'t, O: Sink>(
    out: &mut O,
    why: &'t str,
    before: &'t str,
    about: Piece<'t>,
) -> Result<(), Failed>
    ensures bytes { Writes (O.taken out.old) (O.taken out.new)
        (error_line (why.now ++ before.now ++ piece_text about.entry)) result }
    ensures cause { HasCause (O.faults out.old) (O.faults out.new) result }
{
    let pieces = [
        Piece::Plain("error: "),
        Piece::Plain(why),
        Piece::Plain(before),
        about,
    ];
    write_line(out, &pieces)
}

/// The same, where it is about a name.
pub fn write_named<'t, O: Sink>(out: &mut O, why: &'t str, name: &'t Text) -> Result<(), Failed>
    ensures bytes { Writes (O.taken out.old) (O.taken out.new)
        (error_line (why.now ++ codes " " ++ name_text name.now)) result }
    ensures cause { HasCause (O.faults out.old) (O.faults out.new) result }
{
    write_error(out, why, " ", Piece::Name(name.as_str()))
}

/// The same, where it is about a byte of a text.
pub fn write_at<O: Sink>(out: &mut O, why: &str, at: u32) -> Result<(), Failed>
    ensures bytes { Writes (O.taken out.old) (O.taken out.new)
        (error_line (why.now ++ codes " at byte " ++ decimal at)) result }
    ensures cause { HasCause (O.faults out.old) (O.faults out.new) result }
{
    write_error(out, why, " at byte ", Piece::Number(at as usize))
}
