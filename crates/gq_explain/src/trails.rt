//! From which of its ends each trail of a query is walked.

ghost use Rattle.std.specs.Prelude.{◌≡◌};
ghost use Rattle.gq_io.specs.Causes.{HasCause};
ghost use Rattle.gq_io.specs.Putting.{Puts};
ghost use Rattle.gq_explain.specs.Plans.{ends_word, is_from_left, trail_at, trails_text};

use crate::naming::name_in;
use gq_base::{Direction, List};
use gq_io::{Batch, Failed, Sink};
use gq_plan::{Bound, TrailPart};
use gq_render::{Piece, put_pieces};

// Whether a trail is walked from the end that stands left in the text.
fn is_from_left(rightward: bool, way: Direction) -> bool
    ensures { result ≡ is_from_left rightward way }
{
    match way {
        Direction::Forward => rightward,
        Direction::Backward => !rightward,
    }
}

fn ends_word(rightward: bool, part: &TrailPart) -> &'static str
    ensures { result.now ≡ ends_word rightward part.now }
{
    if part.both {
        return "both";
    }
    if is_from_left(rightward, part.way) {
        "left"
    } else {
        "right"
    }
}

fn put_trail_at<O: Sink>(
    batch: &mut Batch,
    out: &mut O,
    bound: &Bound,
    rightward: &List<bool>,
    at: usize,
) -> Result<(), Failed>
    ensures bytes { Puts (O.taken out.old) (O.taken out.new) batch.old batch.new
        (trail_at bound.now rightward.now at) result }
    ensures cause { HasCause (O.faults out.old) (O.faults out.new) result }
{
    let Some(part) = bound.trails.get(at) else {
        return put_pieces(batch, out, &[]);
    };
    let Some(right) = rightward.get(at) else {
        return put_pieces(batch, out, &[]);
    };
    let line = [
        Piece::Plain("trail "),
        Piece::Name(name_in(&bound.trail_names, at)),
        Piece::Plain(" "),
        Piece::Plain(ends_word(*right, part)),
        Piece::Plain("\n"),
    ];
    put_pieces(batch, out, &line)
}

/// Puts the lines of the trails, for each of which there is whether its arrow leads right.
pub(crate) fn put_trails<O: Sink>(
    batch: &mut Batch,
    out: &mut O,
    bound: &Bound,
    rightward: &List<bool>,
) -> Result<(), Failed>
    ensures bytes { Puts (O.taken out.old) (O.taken out.new) batch.old batch.new
        (trails_text bound.now rightward.now) result }
    ensures cause { HasCause (O.faults out.old) (O.faults out.new) result }
{
    for at in 0..bound.trails.len() {
        put_trail_at(batch, out, bound, rightward, at)?;
    }
    Ok(())
}
