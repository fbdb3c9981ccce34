//! The words of a command line, read as arguments by `clap`.

ghost use Rattle.std.specs.Prelude.{map, string_bytes};
ghost use Rattle.gq_arguments.specs.Reading.{Reads};

use crate::command::command;
use crate::meaning::{Arguments, meaning_of};
use clap::ArgMatches;
use clap::error::ErrorKind;
use std::alloc::Global;

/// Why words were not read.
#[derive(Clone, Copy, Debug, PartialEq, Eq)]
pub enum ArgumentsRefusal {
    /// They are no use of the program.
    Usage,
    /// There was not enough memory.
    Memory,
}

/// The arguments among the words of a command line, of which the first is the program's name.
pub fn read_arguments<'a>(
    alloc: Global,
    words: &'a [String],
) -> Result<Arguments<'a>, ArgumentsRefusal>
    ensures { Reads (map string_bytes words.entry.now) result }
{
    let Ok(command) = command(alloc) else {
        return Err(ArgumentsRefusal::Memory);
    };
    match command.try_get_matches_from(words) {
        Ok(matches) => match meaning_of(&matches) {
            Some(read) => Ok(read),
            None => Err(ArgumentsRefusal::Usage),
        },
        Err(error) => {
            if error.kind() == ErrorKind::OutOfMemory {
                return Err(ArgumentsRefusal::Memory);
            }
            Err(ArgumentsRefusal::Usage)
        }
    }
}
