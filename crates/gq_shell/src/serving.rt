//! The session over a graph.

ghost use Rattle.std.specs.Prelude.{◌≡◌, []};
ghost use Rattle.gq_session.specs.Sessions.{span_of};
ghost use Rattle.gq_shell.specs.Serving.{IsReady, Served};
ghost use Rattle.gq_shell.specs.Statuses.{status_of};

use crate::status::Status;
use crate::workspace::new_workspace;
use gq_base::Memory;
use gq_execute::Settings;
use gq_io::{Sink, Source};
use gq_reply::{Extent, Replier, Workspace};
use gq_session::{Stop, Tone};
use gq_store::Graph;
use std::alloc::Global;

/// The longest statement, in bytes.
const MOST_STATEMENT: usize = 65_536;

/// The longest input, in bytes.
const MOST_INPUT: usize = 1_073_741_824;

/// The status of a run whose session ended so.
pub(crate) fn status_of(ended: Result<Tone, Stop>) -> Status
    ensures { result ≡ status_of ended }
{
    match ended {
        Ok(Tone::Good) => Status::Ended,
        Ok(Tone::Refused) => Status::Refused,
        Ok(Tone::Memory(memory)) => Status::Memory(memory),
        Err(Stop::Read) => Status::ReadFault,
        Err(Stop::Write) => Status::WriteFault,
        Err(Stop::TooLong) => Status::TooLong,
    }
}

/// Answers the statements of the input over a graph, each as it ends, from no parameters on, and says how that ended: by
/// `Ended`, `Refused`, `ReadFault`, `WriteFault`, `TooLong` or `Memory`, as `run` does after a load. The pool has room for a
/// pipeline, and has it afterwards too, however the session ended.
pub fn session<I: Source, O: Sink>(
    alloc: Global,
    graph: &Graph,
    workspace: &mut Workspace,
    settings: Settings,
    input: &mut I,
    out: &mut O,
) -> Status
    requires ready { IsReady workspace.old }
    requires empty { workspace.old.params ≡ [] }
    ensures ready { IsReady workspace.new }
    ensures served { Served graph.now settings (span_of I.left I.faults input.old input.new)
        (span_of O.taken O.faults out.old out.new) result }
{
    let Ok(mut statement) = vec![in alloc; 0u8; MOST_STATEMENT] else {
        return Status::Memory(Memory::Exhausted);
    };
    let replier = Replier {
        alloc,
        graph,
        settings,
        extent: Extent::Full,
    };
    let ended = gq_session::session(&replier, workspace, &mut statement, MOST_INPUT, input, out);
    status_of(ended)
}

/// The same with a pool and parameters of its own.
pub(crate) fn serve<I: Source, O: Sink>(
    alloc: Global,
    graph: &Graph,
    settings: Settings,
    input: &mut I,
    out: &mut O,
) -> Status
    ensures { Served graph.now settings (span_of I.left I.faults input.old input.new)
        (span_of O.taken O.faults out.old out.new) result }
{
    let Ok(mut workspace) = new_workspace(alloc) else {
        return Status::Memory(Memory::Exhausted);
    };
    session(alloc, graph, &mut workspace, settings, input, out)
}
