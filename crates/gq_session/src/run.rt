//! The session over an input that comes in pieces.

ghost use Rattle.std.specs.Prelude.{◌≤◌, ◌<◌, ◌^◌, length};
ghost use Rattle.gq_session.specs.Feeding.{scan_of};
ghost use Rattle.gq_session.specs.Sessions.{Session, Taken, span_of};
ghost use Rattle.gq_session.specs.Whole.{Whole};

use crate::scan::{Fed, Scan};
use crate::{Answerer, Tone};
use gq_io::{Sink, Source};

/// Why a piece was not taken whole.
#[derive(Clone, Copy, Debug, PartialEq, Eq)]
pub enum PieceStop {
    /// A write failed.
    Write,
    /// A limit was passed.
    TooLong,
}

/// Why a session stopped before the end of its input.
#[derive(Clone, Copy, Debug, PartialEq, Eq)]
pub enum Stop {
    /// A read failed.
    Read,
    /// A write failed.
    Write,
    /// A statement or the input is too long.
    TooLong,
}

/// Answers each statement that ends in the piece, and says what the worst reply was like.
pub fn take_piece<A: Answerer, O: Sink>(
    answerer: &A,
    workspace: &mut A::Workspace,
    scan: &mut Scan,
    statement: &mut [u8],
    most: usize,
    piece: &[u8],
    out: &mut O,
) -> Result<Tone, PieceStop>
    requires fits { scan.old.filled ≤ length statement.old }
    requires longest { length statement.old ≤ A.longest }
    requires ready { A.ready workspace.old }
    ensures fits { scan.new.filled ≤ length statement.new }
    ensures ready { A.ready workspace.new }
    ensures taken { Taken (A.answers answerer.now) (A.state workspace.old) (A.state workspace.new)
        (length statement.old) most (scan_of scan.old statement.old) piece.now
        (scan_of scan.new statement.new) (span_of O.taken O.faults out.old out.new) result }
{
    let mut worst = Tone::Good;
    for byte in piece {
        match scan.feed(statement, most, *byte) {
            Fed::Kept => {}
            Fed::Ended(count) => {
                let Ok(tone) = answerer.answer(workspace, &statement[..count], out) else {
                    return Err(PieceStop::Write);
                };
                worst = worst.worse(tone);
            }
            Fed::TooLong => return Err(PieceStop::TooLong),
        }
    }
    Ok(worst)
}

// The session, with what it says of the bytes that it read.
fn take_input<A: Answerer, I: Source, O: Sink>(
    answerer: &A,
    workspace: &mut A::Workspace,
    statement: &mut [u8],
    most: usize,
    input: &mut I,
    out: &mut O,
) -> Result<Tone, Stop>
    requires most { most < 2 ^ 63 }
    requires longest { length statement.old ≤ A.longest }
    requires ready { A.ready workspace.old }
    ensures ready { A.ready workspace.new }
    ensures read { Session (A.answers answerer.now) (A.state workspace.old)
        (A.state workspace.new) (length statement.old) most
        (span_of I.left I.faults input.old input.new)
        (span_of O.taken O.faults out.old out.new) result }
{
    let mut scan = Scan::new();
    let mut worst = Tone::Good;
    let mut piece = [0u8; 4096];
    'pieces: loop {
        let room = (most - scan.total + 1).min(piece.len());
        let Ok(count) = input.read(&mut piece[..room]) else {
            return Err(Stop::Read);
        };
        if count == 0 {
            break;
        }
        match take_piece(
            answerer,
            workspace,
            &mut scan,
            statement,
            most,
            &piece[..count],
            out,
        ) {
            Ok(tone) => worst = worst.worse(tone),
            Err(PieceStop::Write) => return Err(Stop::Write),
            Err(PieceStop::TooLong) => return Err(Stop::TooLong),
        }
    }
    match answerer.answer(workspace, &statement[..scan.filled], out) {
        Ok(tone) => Ok(worst.worse(tone)),
        Err(_) => Err(Stop::Write),
    }
}

/// Answers each statement of the input, and says what the worst reply was like. Statement after statement is answered as
/// the input is read; the bytes behind the last `;` are a statement too.
///
/// The buffer's length is the longest that a statement may be, and no more than the answerer takes; `most` the longest that the input may be, in bytes. Of an
/// input that is too long the statements that ended before are answered, and at most one byte more than `most` is read.
/// After `Stop::Read` the statements that ended in what was read are answered.
pub fn session<A: Answerer, I: Source, O: Sink>(
    answerer: &A,
    workspace: &mut A::Workspace,
    statement: &mut [u8],
    most: usize,
    input: &mut I,
    out: &mut O,
) -> Result<Tone, Stop>
    requires most { most < 2 ^ 63 }
    requires longest { length statement.old ≤ A.longest }
    requires ready { A.ready workspace.old }
    ensures ready { A.ready workspace.new }
    ensures read { Session (A.answers answerer.now) (A.state workspace.old)
        (A.state workspace.new) (length statement.old) most
        (span_of I.left I.faults input.old input.new)
        (span_of O.taken O.faults out.old out.new) result }
    ensures whole { Whole (A.answers answerer.now) (A.state workspace.old)
        (length statement.old) most
        (span_of I.left I.faults input.old input.new)
        (span_of O.taken O.faults out.old out.new) result }
{
    take_input(answerer, workspace, statement, most, input, out)
}
