//! The top call: all that the program does.

ghost use Rattle.std.specs.Prelude.{◌≡◌, ◌⊎◌, map, string_bytes};
ghost use Rattle.gq_arguments.specs.Command.{usage_text};
ghost use Rattle.gq_io.specs.Causes.{HasCause, Rose};
ghost use Rattle.gq_io.specs.Outside.{Writes};
ghost use Rattle.gq_session.specs.Sessions.{span_of};
ghost use Rattle.gq_shell.specs.Claim.{Runs, Whole, outside_of, settings_of};
ghost use Rattle.gq_shell.specs.OneQuery.{RepliesToOne};
ghost use Rattle.gq_shell.specs.steps.Steps.{EndsLoad, told};

use crate::load_line::write_load_line;
use crate::serving::serve;
use crate::showing::show_sample;
use crate::status::Status;
use gq_arguments::{Arguments, ArgumentsRefusal, Source as GraphSource, read_arguments, usage};
use gq_base::Memory;
use gq_execute::Settings;
use gq_io::{Failed, Files, Sink, Source, write_all};
use gq_loader::{Limits, LoadRefusal, load};
use std::alloc::Global;

// The settings that the arguments say.
fn settings_of(arguments: &Arguments<'_>) -> Settings
    ensures { result ≡ settings_of arguments.now }
{
    Settings {
        order: arguments.order,
        rows: arguments.rows,
    }
}

// The status of a run that ended with a line.
fn told(written: Result<(), Failed>, status: Status) -> Status
    ensures { result ≡ told written status }
{
    match written {
        Ok(()) => status,
        Err(Failed) => Status::WriteFault,
    }
}

fn write_usage<O: Sink>(out: &mut O) -> Result<(), Failed>
    ensures bytes { Writes (O.taken out.old) (O.taken out.new) usage_text result }
    ensures cause { HasCause (O.faults out.old) (O.faults out.new) result }
{
    write_all(out, usage())
}

// Ends a run whose files gave no graph: with the line of the refusal, or with nothing after a fault
// and for want of memory.
fn end_load<O: Sink>(out: &mut O, why: &LoadRefusal) -> Status
    ensures { EndsLoad why.now (span_of O.taken O.faults out.old out.new) result }
{
    match why {
        LoadRefusal::ReadFault { .. } => Status::ReadFault,
        LoadRefusal::Memory => Status::Memory(Memory::Exhausted),
        _ => told(write_load_line(out, why), Status::NotLoaded),
    }
}

fn execute<F: Files, I: Source, O: Sink>(
    alloc: Global,
    words: &[String],
    files: &mut F,
    input: &mut I,
    out: &mut O,
) -> Status
    ensures { Runs (map string_bytes words.entry.now)
        (outside_of F.held F.faults F.misses files.old files.new I.left I.faults input.old input.new
        O.taken O.faults out.old out.new) result }
{
    let arguments = match read_arguments(alloc, words) {
        Ok(arguments) => arguments,
        Err(ArgumentsRefusal::Usage) => return told(write_usage(out), Status::Usage),
        Err(ArgumentsRefusal::Memory) => return Status::Memory(Memory::Exhausted),
    };
    let settings = settings_of(&arguments);
    let path = match arguments.source {
        GraphSource::Manifest(path) => path,
        GraphSource::Sample(size) => return show_sample(alloc, size, settings, out),
    };
    match load(alloc, files, path, &Limits::standard()) {
        Ok(graph) => serve(alloc, &graph, settings, input, out),
        Err(why) => end_load(out, &why),
    }
}

/// Does all that the program does, and answers how it ended. `words` begins with the program's name.
///
/// They name a manifest, whose files are loaded and whose graph answers the statements of the input, each as it ends; or
/// they ask for a sample graph, which answers six questions, and the input is not read. What is written does not depend on
/// the pieces in which the input comes and the output goes. The first call of `files`, `input` or `out` that fails ends the
/// work. `Memory` comes before the first statement is answered, and then nothing is written, or where some statement met
/// want of memory and was answered by that line; it tells the cause of the first one that did.
pub fn run<F: Files, I: Source, O: Sink>(
    alloc: Global,
    words: &[String],
    files: &mut F,
    input: &mut I,
    out: &mut O,
) -> Status
    ensures runs { Runs (map string_bytes words.entry.now)
        (outside_of F.held F.faults F.misses files.old files.new I.left I.faults input.old input.new
        O.taken O.faults out.old out.new) result }
    ensures whole { Whole (map string_bytes words.entry.now)
        (outside_of F.held F.faults F.misses files.old files.new I.left I.faults input.old input.new
        O.taken O.faults out.old out.new) result }
    ensures query { RepliesToOne (map string_bytes words.entry.now)
        (outside_of F.held F.faults F.misses files.old files.new I.left I.faults input.old input.new
        O.taken O.faults out.old out.new) result }
    ensures read_fault { result ≡ Status.ReadFault → Rose (F.faults files.old) (F.faults files.new)
        ⊎ Rose (I.faults input.old) (I.faults input.new) }
    ensures write_fault { result ≡ Status.WriteFault → Rose (O.faults out.old) (O.faults out.new) }
{
    execute(alloc, words, files, input, out)
}
