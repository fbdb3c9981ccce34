//! The bytes of one file, up to a limit.
ghost use Rattle.std.specs.Prelude.{◌≤◌, IfOk, length, nat_le};
ghost use Rattle.gq_loader.specs.Answers.{Answers};
ghost use Rattle.gq_loader.specs.steps.Effects.{NamesOnly, Reads, told_of};
ghost use Rattle.gq_loader.specs.Files.{file_of};

use crate::refusal::LoadRefusal;
use gq_base::{Bytes, Text};
use gq_io::{Files, ReadFile, ReadStop, read_chosen};
use std::alloc::Global;

/// The bytes of the file of this name, of at most `most`.
pub(crate) fn read_file<F: Files>(
    alloc: Global,
    files: &mut F,
    name: &str,
    most: usize,
) -> Result<Bytes, LoadRefusal>
    ensures answers { Answers (F.held files.old)
        (λ names. file_of names (λ length. nat_le length most) name.now) result }
    ensures named { NamesOnly name.now result }
    ensures few { IfOk result (λ bytes. length bytes ≤ most) }
    ensures reads { Reads most
        (told_of F.held F.left F.faults F.misses files.old)
        (told_of F.held F.left F.faults F.misses files.new) result }
{
    // Behind a call that failed no memory is wanted, so that nothing but the fault is told.
    let named = Text::new(alloc, name)?;
    let Ok(found) = files.select(name) else {
        return Err(LoadRefusal::ReadFault { name: named });
    };
    if !found {
        return Err(LoadRefusal::NoFile { name: named });
    }
    match read_chosen(alloc, files, most) {
        Ok(ReadFile::Whole(bytes)) => Ok(bytes),
        Ok(ReadFile::TooLong) => Err(LoadRefusal::FileTooLong { name: named }),
        Err(ReadStop::Failed) => Err(LoadRefusal::ReadFault { name: named }),
        Err(ReadStop::Memory) => Err(LoadRefusal::Memory),
    }
}
