//! A case: what the program is given, and what it is to write.

use std::alloc::{AllocError, AllocFailed, Global};

/// Why a case is not tried.
#[derive(Clone, Copy, Debug, PartialEq, Eq)]
pub enum Stop {
    /// A line of the case file is of no form.
    Malformed,
    /// A file that a case names cannot be read, or the output cannot be written.
    Outside,
    /// There was not enough memory.
    Memory,
}

impl From<AllocError> for Stop {
    fn from(_error: AllocError) -> Stop {
        Stop::Memory
    }
}

impl<T: Drop> From<AllocFailed<T>> for Stop {
    fn from(_failed: AllocFailed<T>) -> Stop {
        Stop::Memory
    }
}

impl From<gq_base::Memory> for Stop {
    fn from(_memory: gq_base::Memory) -> Stop {
        Stop::Memory
    }
}

/// A file that the program finds.
#[derive(Drop)]
pub struct CaseFile {
    pub name: String,
    pub bytes: Vec<u8>,
}

/// Under which orders of plans a case has to agree: that of its words, those whose plans have no costs, or each.
#[derive(Clone, Copy, PartialEq, Eq)]
pub enum Orders {
    OfTheWords,
    Both,
    All,
}

/// Where the lines behind `|` belong.
#[derive(Clone, Copy, PartialEq, Eq)]
pub enum Place {
    Input,
    File,
}

/// What the numbers of a series say.
#[derive(Clone, Copy, PartialEq, Eq)]
pub enum SeriesOf {
    /// The call of the files that fails.
    FileCalls,
    /// The call of the input that fails.
    InputCalls,
    /// The write that fails.
    OutputCalls,
    /// The room of the output, in bytes.
    Rooms,
    /// After how many bytes the file that was named last is cut.
    Cuts,
}

impl SeriesOf {
    // Whether they are numbers of calls that fail.
    fn fails(self) -> bool {
        match self {
            SeriesOf::FileCalls | SeriesOf::InputCalls | SeriesOf::OutputCalls => true,
            SeriesOf::Rooms | SeriesOf::Cuts => false,
        }
    }
}

/// A case with a series is run once for each number from the first to the one before the end.
#[derive(Clone, Copy)]
pub struct Series {
    pub of: SeriesOf,
    pub first: u32,
    pub end: u32,
}

/// What the program is given: its words, which orders are to be named behind them, the files, of which the last of a
/// name counts, the input, which calls fail, how many bytes a read of the input gives and a write takes, where the case
/// says it, and what is another one in each run; and its output and status. A mixed output may have its lines between the
/// first and the last in any order.
#[derive(Drop)]
pub struct Case {
    pub words: Vec<String>,
    pub orders: Orders,
    pub files: Vec<CaseFile>,
    pub input: Vec<u8>,
    pub place: Place,
    pub failing_files: Vec<u64>,
    pub failing_input: Vec<u64>,
    pub failing_output: Vec<u64>,
    pub piece: Option<u32>,
    pub series: Option<Series>,
    pub output: Vec<u8>,
    pub mixed: bool,
    pub status: Option<u8>,
}

fn standard_words(alloc: Global) -> Result<Vec<String>, Stop> {
    let mut words = Vec::new(alloc);
    for word in ["graphq", "--manifest", "g.manifest"] {
        words.push(String::from_str(alloc, word)?)?;
    }
    Ok(words)
}

impl Case {
    /// A case without files, input and output.
    pub fn new(alloc: Global) -> Result<Case, Stop> {
        Ok(Case {
            words: standard_words(alloc)?,
            orders: Orders::OfTheWords,
            files: Vec::new(alloc),
            input: Vec::new(alloc),
            place: Place::Input,
            failing_files: Vec::new(alloc),
            failing_input: Vec::new(alloc),
            failing_output: Vec::new(alloc),
            piece: None,
            series: None,
            output: Vec::new(alloc),
            mixed: false,
            status: None,
        })
    }

    /// Whether some call fails.
    pub fn fails(&self) -> bool {
        !self.failing_files.is_empty()
            || !self.failing_input.is_empty()
            || !self.failing_output.is_empty()
            || self.fails_in_series()
    }

    fn fails_in_series(&self) -> bool {
        match self.series {
            Some(series) => series.of.fails(),
            None => false,
        }
    }

    /// The status that is wanted: what the case says, or else what the lines of the output tell.
    pub fn wanted_status(&self) -> u8 {
        match self.status {
            Some(status) => status,
            None => status_of_lines(self.output.as_slice()),
        }
    }
}

// What a line of an output tells of the status.
fn status_of_line(line: &str) -> u8 {
    if line == "error: Memory" {
        return 6;
    }
    match line.split_once(' ') {
        Some(("error:", _)) => 1,
        Some(("usage:", _)) => 2,
        Some(("load:", _)) => 3,
        _ => 0,
    }
}

// The greatest that a line tells.
fn status_of_lines(output: &[u8]) -> u8 {
    let mut status = 0;
    for line in str::from_utf8(output).unwrap_or("").lines() {
        status = status_of_line(line).max(status);
    }
    status
}
