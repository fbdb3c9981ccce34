//! The read of all that is left, up to a limit.

ghost use Rattle.std.specs.Prelude.{◌≡◌, ◌+◌, ◌<◌, ◌≤◌, IfSome, IfOk, OnOk, take, vec_len};
ghost use Rattle.gq_io.specs.Reading.{AnswersFor, ReadsWithin, FailsByFault};
ghost use Rattle.gq_io.specs.declared.reading.ReadStop.TheVariants as stop;

use crate::{Failed, Files};
use gq_base::{Bytes, Memory};
use std::alloc::Global;

/// The room that the first read gets, in bytes.
const PIECE: usize = 65_536;

/// What a bounded read found.
#[derive(Debug, Drop)]
pub enum ReadFile {
    /// All bytes up to the end.
    Whole(Bytes),
    /// More bytes than the limit.
    TooLong,
}

/// Why a bounded read stopped before its answer.
#[derive(Clone, Copy, Debug, PartialEq, Eq)]
pub enum ReadStop {
    /// A read failed.
    Failed,
    /// There was not enough memory.
    Memory,
}

impl From<Failed> for ReadStop {
    ghost from_gives = { λ _ e. e ≡ stop.Failed };

    fn from(_failed: Failed) -> ReadStop {
        ReadStop::Failed
    }
}

impl From<Memory> for ReadStop {
    ghost from_gives = { λ _ e. e ≡ stop.Memory };

    fn from(_memory: Memory) -> ReadStop {
        ReadStop::Memory
    }
}

// Makes room behind the filled bytes where there is none: as much as they take, up to `most + 1` bytes in all.
fn make_room(bytes: &mut Vec<u8>, filled: usize, most: usize) -> Result<(), Memory>
    requires below { filled ≤ most }
    requires within { filled ≤ vec_len bytes.old }
    requires len { vec_len bytes.old ≤ most + 1 }
    ensures room { OnOk result (filled < vec_len bytes.new) }
    ensures few { OnOk result (vec_len bytes.new ≤ most + 1) }
    ensures kept { OnOk result (take filled bytes.new.items ≡ take filled bytes.old.items) }
{
    let len = bytes.len();
    if filled < len {
        return Ok(());
    }
    let more = (most - len).min(len.max(PIECE) - 1) + 1;
    bytes.resize(len + more, 0)?;
    Ok(())
}

/// Reads the chosen file to its end, unless it has more than `most` bytes. It reads at most one byte more.
pub fn read_chosen<F: Files>(
    alloc: Global,
    files: &mut F,
    most: usize,
) -> Result<ReadFile, ReadStop>
    ensures read { ReadsWithin most (F.left files.old) (F.left files.new) result }
    ensures told { IfSome (F.left files.old) (λ all. IfOk result (AnswersFor most all)) }
    ensures cause { FailsByFault (F.faults files.old) (F.faults files.new) result }
    ensures misses { F.misses files.old ≤ F.misses files.new }
    ensures held { F.held files.new ≡ F.held files.old }
{
    let mut bytes = Vec::new(alloc);
    let mut filled = 0;
    while filled <= most {
        make_room(&mut bytes, filled, most)?;
        let count = files.read(&mut bytes[filled..])?;
        if count == 0 {
            bytes.truncate(filled);
            return Ok(ReadFile::Whole(Bytes::from_vec(bytes)));
        }
        filled += count;
    }
    Ok(ReadFile::TooLong)
}
