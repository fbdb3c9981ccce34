//! The answers to the questions that are asked of the sample graph.

ghost use Rattle.std.specs.Prelude.{◌≡◌, ◌≤◌, []};
ghost use Rattle.gq_io.specs.Causes.{HasCause};
ghost use Rattle.gq_io.specs.Outside.{Writes};
ghost use Rattle.gq_reply.specs.Replies.{context_of};
ghost use Rattle.gq_session.specs.Sessions.{span_of};
ghost use Rattle.gq_shell.specs.Questions.{label_text};
ghost use Rattle.gq_shell.specs.Serving.{IsReady};
ghost use Rattle.gq_shell.specs.steps.Steps.{Asked, AskedOne, Quizzed};

use crate::serving::status_of;
use crate::status::Status;
use crate::workspace::new_workspace;
use gq_base::Memory;
use gq_execute::Settings;
use gq_io::{Failed, Sink};
use gq_render::{Piece, write_line};
use gq_reply::{Extent, Replier, Workspace};
use gq_sample::{question, sample};
use gq_session::{Answerer, Stop, Tone};
use std::alloc::Global;

// Writes the line that stands before the answer to a question.
fn write_label<O: Sink>(out: &mut O, number: u32) -> Result<(), Failed>
    ensures bytes { Writes (O.taken out.old) (O.taken out.new) (label_text number) result }
    ensures cause { HasCause (O.faults out.old) (O.faults out.new) result }
{
    let pieces = [Piece::Plain("Q"), Piece::Number(number as usize)];
    write_line(out, &pieces)
}

// Answers the question of this number.
fn ask<O: Sink>(
    replier: &Replier<'_>,
    workspace: &mut Workspace,
    number: u32,
    out: &mut O,
) -> Result<Tone, Failed>
    requires least { 1 ≤ number }
    requires most { number ≤ 6 }
    requires ready { IsReady workspace.old }
    ensures replies { AskedOne (context_of replier.now) number workspace.old.params
        workspace.new.params (span_of O.taken O.faults out.old out.new) result }
    ensures ready { IsReady workspace.new }
{
    match write_label(out, number) {
        Ok(()) => replier.answer(workspace, question(number).as_bytes(), out),
        Err(Failed) => Err(Failed),
    }
}

// Answers the six questions, and says what the worst of the answers is like.
fn ask_all<O: Sink>(
    replier: &Replier<'_>,
    workspace: &mut Workspace,
    out: &mut O,
) -> Result<Tone, Failed>
    requires ready { IsReady workspace.old }
    requires empty { workspace.old.params ≡ [] }
    ensures { Asked (context_of replier.now) (span_of O.taken O.faults out.old out.new) result }
{
    let mut worst = Tone::Good;
    for number in 1..7u32 {
        match ask(replier, workspace, number, out) {
            Ok(tone) => worst = worst.worse(tone),
            Err(Failed) => return Err(Failed),
        }
    }
    Ok(worst)
}

/// Makes the sample graph of so many persons, asks it the six questions, and says how that ended.
pub(crate) fn show_sample<O: Sink>(
    alloc: Global,
    size: u32,
    settings: Settings,
    out: &mut O,
) -> Status
    requires least { 1 ≤ size }
    requires most { size ≤ 1000000 }
    ensures { Quizzed size settings (span_of O.taken O.faults out.old out.new) result }
{
    let Ok(graph) = sample(alloc, size) else {
        return Status::Memory(Memory::Exhausted);
    };
    let Ok(mut workspace) = new_workspace(alloc) else {
        return Status::Memory(Memory::Exhausted);
    };
    let replier = Replier {
        alloc,
        graph: &graph,
        settings,
        extent: Extent::Short,
    };
    match ask_all(&replier, &mut workspace, out) {
        Ok(tone) => status_of(Ok(tone)),
        Err(Failed) => status_of(Err(Stop::Write)),
    }
}
