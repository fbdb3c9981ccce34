//! How a run of the program ended.

ghost use Rattle.std.specs.Prelude.{◌≡◌};
ghost use Rattle.gq_shell.specs.Statuses.{exit_status};

use gq_base::Memory;

/// The status of a run. Its number is the program's exit status, from 0 in this order.
#[derive(Clone, Copy, Debug, PartialEq, Eq)]
pub enum Status {
    /// All statements of the input, or all questions of the sample, were answered, and no reply is a refusal.
    Ended,
    /// All of them were answered, and a reply is a refusal.
    Refused,
    /// The words are not those of the program.
    Usage,
    /// The files give no graph.
    NotLoaded,
    /// A file or the input could not be read.
    ReadFault,
    /// The output could not be written.
    WriteFault,
    /// There was no memory before the first statement, and nothing was written; or all were answered, one or more by
    /// the line of want of memory: the cause is that of the first of them.
    Memory(Memory),
    /// The input, or a statement of it, is longer than it may be.
    TooLong,
}

impl Status {
    /// The exit status.
    pub fn code(self) -> u8
        ensures { result ≡ exit_status self }
    {
        match self {
            Status::Ended => 0,
            Status::Refused => 1,
            Status::Usage => 2,
            Status::NotLoaded => 3,
            Status::ReadFault => 4,
            Status::WriteFault => 5,
            Status::Memory(_) => 6,
            Status::TooLong => 7,
        }
    }
}
