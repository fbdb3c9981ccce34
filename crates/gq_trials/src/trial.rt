//! One run of the program in memory, and whether it does what a case wants.

ghost use Rattle.std.specs.Prelude.{◌<◌};

use gq_base::{Bytes, List, Text};
use gq_case_text::{Case, Orders, SeriesOf, Stop};
use gq_io::{MemoryFiles, MemorySink, MemorySource};
use gq_shell::{Order, run};
use std::alloc::Global;

/// The room for an output, in bytes, where a case does not say it.
const ROOM: u32 = 65_536;

// The lengths of the pieces in which an input is given, where a case does not say it.
static PIECES: [u32; 5] = [1, 2, 7, 4_096, 65_536];

// The length where some call fails, so that the number of the call tells where.
static ONE_PIECE: [u32; 1] = [4_096];

static BOTH: [Order; 2] = [Order::Given, Order::Greedy];

/// What a run wrote and its exit status; and how it was run: in pieces of which length, in which order, and with which
/// number of its series, 0 where there is none.
#[derive(Drop)]
pub struct Got {
    pub status: u8,
    pub output: Vec<u8>,
    pub piece: u32,
    pub order: &'static str,
    pub number: u32,
}

// A number of a series, and what it says.
#[derive(Clone, Copy)]
struct Turn {
    of: SeriesOf,
    number: u32,
}

// A case with the words that it is run with, the order that they name last, and the number of its series.
#[derive(Clone, Copy)]
struct Trial<'t> {
    case: &'t Case,
    words: &'t [String],
    order: &'static str,
    turn: Option<Turn>,
}

impl<'t> Trial<'t> {
    fn new(case: &'t Case, words: &'t [String], order: &'static str) -> Trial<'t> {
        Trial {
            case,
            words,
            order,
            turn: None,
        }
    }

    // The number of the series, where the numbers of the series say this.
    fn number_of(&self, of: SeriesOf) -> Option<u32> {
        match self.turn {
            Some(turn) if turn.of == of => Some(turn.number),
            _ => None,
        }
    }

    fn number(&self) -> u32 {
        match self.turn {
            Some(turn) => turn.number,
            None => 0,
        }
    }
}

// The first so many bytes, where it is said how many.
fn front(bytes: &[u8], count: Option<u32>) -> &[u8] {
    match count {
        Some(count) => &bytes[..bytes.len().min(count as usize)],
        None => bytes,
    }
}

// The calls that fail: those of the case, and that of the series.
fn calls(alloc: Global, failing: &[u64], number: Option<u32>) -> Result<List<u64>, Stop> {
    let mut numbers = Vec::from_slice(alloc, failing)?;
    if let Some(number) = number {
        numbers.push(u64::from(number))?;
    }
    Ok(List::from_vec(numbers))
}

// The names and the bytes, the last file first, since the first of a name counts.
fn files(alloc: Global, trial: Trial<'_>) -> Result<MemoryFiles, Stop> {
    let mut names = List::new(alloc);
    let mut contents = List::new(alloc);
    let mut cut = trial.number_of(SeriesOf::Cuts);
    for file in trial.case.files.iter().rev() {
        names.push(Text::new(alloc, file.name.as_str())?)?;
        contents.push(Bytes::new(alloc, front(file.bytes.as_slice(), cut))?)?;
        cut = None;
    }
    if names.len() != contents.len() {
        return Err(Stop::Malformed);
    }
    let failing = trial.case.failing_files.as_slice();
    let failing = calls(alloc, failing, trial.number_of(SeriesOf::FileCalls))?;
    Ok(MemoryFiles::new(names, contents, failing))
}

fn input(alloc: Global, trial: Trial<'_>, piece: u32) -> Result<MemorySource, Stop>
    requires { 0 < piece }
{
    let failing = trial.case.failing_input.as_slice();
    let failing = calls(alloc, failing, trial.number_of(SeriesOf::InputCalls))?;
    let bytes = Bytes::new(alloc, trial.case.input.as_slice())?;
    Ok(MemorySource::new(bytes, piece, failing))
}

fn output(alloc: Global, trial: Trial<'_>, piece: u32) -> Result<MemorySink, Stop>
    requires { 0 < piece }
{
    let failing = trial.case.failing_output.as_slice();
    let failing = calls(alloc, failing, trial.number_of(SeriesOf::OutputCalls))?;
    let room = trial.number_of(SeriesOf::Rooms).unwrap_or(ROOM);
    Ok(MemorySink::new(alloc, room, piece, failing)?)
}

// What a run is to write: the output of its case, or the front of it that the writes before the one that fails take, or
// that there is room for.
fn wanted(trial: Trial<'_>, piece: u32) -> &[u8] {
    let room = match trial.number_of(SeriesOf::OutputCalls) {
        Some(writes) => Some(writes.saturating_mul(piece)),
        None => trial.number_of(SeriesOf::Rooms),
    };
    front(trial.case.output.as_slice(), room)
}

fn run_in_pieces(alloc: Global, trial: Trial<'_>, piece: u32) -> Result<Got, Stop>
    requires { 0 < piece }
{
    let mut files = files(alloc, trial)?;
    let mut input = input(alloc, trial, piece)?;
    let mut out = output(alloc, trial, piece)?;
    let status = run(alloc, trial.words, &mut files, &mut input, &mut out);
    Ok(Got {
        status: status.code(),
        output: Vec::from_slice(alloc, out.taken())?,
        piece,
        order: trial.order,
        number: trial.number(),
    })
}

// The first run in pieces of one of these lengths that does not do what its case wants.
fn differs_in(alloc: Global, trial: Trial<'_>, pieces: &[u32]) -> Result<Option<Got>, Stop> {
    for piece in pieces {
        if *piece == 0 {
            return Err(Stop::Malformed);
        }
        let got = run_in_pieces(alloc, trial, *piece)?;
        if !agrees(alloc, trial, &got)? {
            return Ok(Some(got));
        }
    }
    Ok(None)
}

fn differs_at(alloc: Global, trial: Trial<'_>) -> Result<Option<Got>, Stop> {
    if let Some(piece) = trial.case.piece {
        let named = [piece];
        return differs_in(alloc, trial, named.as_slice());
    }
    if trial.case.fails() {
        return differs_in(alloc, trial, ONE_PIECE.as_slice());
    }
    differs_in(alloc, trial, PIECES.as_slice())
}

// Runs a trial once, or with each number of the series of its case.
fn differs_with(alloc: Global, trial: Trial<'_>) -> Result<Option<Got>, Stop> {
    let Some(series) = trial.case.series else {
        return differs_at(alloc, trial);
    };
    let mut numbered = trial;
    for number in series.first..series.end {
        numbered.turn = Some(Turn {
            of: series.of,
            number,
        });
        let got = differs_at(alloc, numbered)?;
        if got.is_some() {
            return Ok(got);
        }
    }
    Ok(None)
}

// The words of a case, and an order behind them.
fn ordered_words(alloc: Global, case: &Case, order: &str) -> Result<Vec<String>, Stop> {
    let mut words = case.words.clone()?;
    words.push(String::from_str(alloc, "--order")?)?;
    words.push(String::from_str(alloc, order)?)?;
    Ok(words)
}

fn differs_in_orders(alloc: Global, case: &Case, orders: &[Order]) -> Result<Option<Got>, Stop> {
    for order in orders {
        let order = order.name();
        let words = ordered_words(alloc, case, order)?;
        let words = words.as_slice();
        let got = differs_with(alloc, Trial::new(case, words, order))?;
        if got.is_some() {
            return Ok(got);
        }
    }
    Ok(None)
}

/// Runs the program as a case says, in each way, and gives the first run that does not do what the case wants.
pub fn difference(alloc: Global, case: &Case) -> Result<Option<Got>, Stop> {
    match case.orders {
        Orders::Both => differs_in_orders(alloc, case, BOTH.as_slice()),
        Orders::All => differs_in_orders(alloc, case, Order::ALL.as_slice()),
        Orders::OfTheWords => {
            let words = case.words.as_slice();
            differs_with(alloc, Trial::new(case, words, "of the words"))
        }
    }
}

fn sorted_lines<'t>(alloc: Global, text: &'t str) -> Result<Vec<&'t str>, Stop> {
    let mut lines = Vec::new(alloc);
    for line in text.split('\n') {
        lines.push(line)?;
    }
    lines.sort()?;
    Ok(lines)
}

// The first line of a text and its last one, with their ends.
fn first_and_last(text: &str) -> (Option<&str>, Option<&str>) {
    (
        text.split_inclusive('\n').next(),
        text.split_inclusive('\n').last(),
    )
}

// Whether two texts have the same first line, the same last line, and the same lines in any order, all with their ends.
fn same_mixed(alloc: Global, one: &str, other: &str) -> Result<bool, Stop> {
    let ends = first_and_last(one) == first_and_last(other);
    Ok(ends && sorted_lines(alloc, one)?.as_slice() == sorted_lines(alloc, other)?.as_slice())
}

// Whether a run did what its case wants.
fn agrees(alloc: Global, trial: Trial<'_>, got: &Got) -> Result<bool, Stop> {
    let case = trial.case;
    let wanted = wanted(trial, got.piece);
    if got.status != case.wanted_status() {
        return Ok(false);
    }
    if !case.mixed {
        return Ok(got.output.as_slice() == wanted);
    }
    match (
        str::from_utf8(wanted),
        str::from_utf8(got.output.as_slice()),
    ) {
        (Ok(wanted), Ok(text)) => same_mixed(alloc, wanted, text),
        _ => Ok(false),
    }
}
