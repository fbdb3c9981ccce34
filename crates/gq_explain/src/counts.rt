//! How many alternatives a query has, and how many each part of it that has alternatives of its own:
//! the path of each of its tests, and each of its OPTIONAL MATCH clauses; and between them its trails.

ghost use Rattle.std.specs.Prelude.{◌+◌, ◌++◌, ◌<◌, ◌^◌};
ghost use Rattle.gq_io.specs.Causes.{HasCause};
ghost use Rattle.gq_io.specs.Putting.{Puts};
ghost use Rattle.gq_explain.specs.Plans.{counts_text, optional_at, optionals_text, part_line};
ghost use Rattle.gq_explain.specs.Plans.{test_at, tests_text, trails_text};

use crate::trails::put_trails;
use gq_base::List;
use gq_io::{Batch, Failed, Sink};
use gq_plan::Bound;
use gq_render::{Piece, put_pieces};

// Puts the line of a part: its word, its number, and how many alternatives it has.
fn put_part<O: Sink>(
    batch: &mut Batch,
    out: &mut O,
    word: &str,
    number: usize,
    count: usize,
) -> Result<(), Failed>
    ensures bytes { Puts (O.taken out.old) (O.taken out.new) batch.old batch.new
        (part_line word.now number count) result }
    ensures cause { HasCause (O.faults out.old) (O.faults out.new) result }
{
    let line = [
        Piece::Plain(word),
        Piece::Number(number),
        Piece::Plain(" alternatives "),
        Piece::Number(count),
        Piece::Plain("\n"),
    ];
    put_pieces(batch, out, &line)
}

fn put_test_at<O: Sink>(
    batch: &mut Batch,
    out: &mut O,
    bound: &Bound,
    at: usize,
) -> Result<(), Failed>
    requires { at + 1 < 2 ^ 64 }
    ensures bytes { Puts (O.taken out.old) (O.taken out.new) batch.old batch.new
        (test_at bound.now at) result }
    ensures cause { HasCause (O.faults out.old) (O.faults out.new) result }
{
    let Some(part) = bound.patterns.get(at) else {
        return put_pieces(batch, out, &[]);
    };
    put_part(batch, out, "exists ", at + 1, part.alternatives.len())
}

fn put_tests<O: Sink>(batch: &mut Batch, out: &mut O, bound: &Bound) -> Result<(), Failed>
    ensures bytes { Puts (O.taken out.old) (O.taken out.new) batch.old batch.new
        (tests_text bound.now) result }
    ensures cause { HasCause (O.faults out.old) (O.faults out.new) result }
{
    for at in 0..bound.patterns.len() {
        put_test_at(batch, out, bound, at)?;
    }
    Ok(())
}

fn put_optional_at<O: Sink>(
    batch: &mut Batch,
    out: &mut O,
    bound: &Bound,
    at: usize,
) -> Result<(), Failed>
    requires { at + 1 < 2 ^ 64 }
    ensures bytes { Puts (O.taken out.old) (O.taken out.new) batch.old batch.new
        (optional_at bound.now at) result }
    ensures cause { HasCause (O.faults out.old) (O.faults out.new) result }
{
    let Some(part) = bound.optionals.get(at) else {
        return put_pieces(batch, out, &[]);
    };
    put_part(batch, out, "optional ", at + 1, part.alternatives.len())
}

fn put_optionals<O: Sink>(batch: &mut Batch, out: &mut O, bound: &Bound) -> Result<(), Failed>
    ensures bytes { Puts (O.taken out.old) (O.taken out.new) batch.old batch.new
        (optionals_text bound.now) result }
    ensures cause { HasCause (O.faults out.old) (O.faults out.new) result }
{
    for at in 0..bound.optionals.len() {
        put_optional_at(batch, out, bound, at)?;
    }
    Ok(())
}

// Puts the lines of trails and of OPTIONAL MATCH clauses.
#[tactic(auto, using(gq_render::proofs::Chains::both_put, gq_render::proofs::Chains::one_broke))]
fn put_later<O: Sink>(
    batch: &mut Batch,
    out: &mut O,
    bound: &Bound,
    rightward: &List<bool>,
) -> Result<(), Failed>
    ensures bytes { Puts (O.taken out.old) (O.taken out.new) batch.old batch.new
        (trails_text bound.now rightward.now ++ optionals_text bound.now) result }
    ensures cause { HasCause (O.faults out.old) (O.faults out.new) result }
{
    put_trails(batch, out, bound, rightward)?;
    put_optionals(batch, out, bound)
}

// Puts the lines of all parts.
#[tactic(auto, using(gq_render::proofs::Chains::both_put, gq_render::proofs::Chains::one_broke))]
fn put_parts<O: Sink>(
    batch: &mut Batch,
    out: &mut O,
    bound: &Bound,
    rightward: &List<bool>,
) -> Result<(), Failed>
    ensures bytes { Puts (O.taken out.old) (O.taken out.new) batch.old batch.new
        (tests_text bound.now ++ (trails_text bound.now rightward.now
        ++ optionals_text bound.now)) result }
    ensures cause { HasCause (O.faults out.old) (O.faults out.new) result }
{
    put_tests(batch, out, bound)?;
    put_later(batch, out, bound, rightward)
}

/// Puts how many alternatives a query has, and how many each part of it; and its trails, each by
/// whether its arrow leads right.
pub(crate) fn put_counts<O: Sink>(
    batch: &mut Batch,
    out: &mut O,
    bound: &Bound,
    rightward: &List<bool>,
) -> Result<(), Failed>
    ensures bytes { Puts (O.taken out.old) (O.taken out.new) batch.old batch.new
        (counts_text bound.now rightward.now) result }
    ensures cause { HasCause (O.faults out.old) (O.faults out.new) result }
{
    let count = [
        Piece::Plain("alternatives "),
        Piece::Number(bound.alternatives.len()),
        Piece::Plain("\n"),
    ];
    put_pieces(batch, out, &count)?;
    put_parts(batch, out, bound, rightward)
}
