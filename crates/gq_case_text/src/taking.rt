//! Takes the lines of a case: a line's first word says what it is.

use crate::case::{Case, CaseFile, Orders, Place, Series, SeriesOf, Stop};
use crate::spelled::push_line;
use std::fs;

fn add_file(rt: &HostRuntime, case: &mut Case, name: &str, bytes: Vec<u8>) -> Result<(), Stop> {
    let name = String::from_str(rt.alloc(), name)?;
    case.files.push(CaseFile { name, bytes })?;
    Ok(())
}

// Adds files that lie beside the case files.
fn add_files(rt: &HostRuntime, case: &mut Case, names: &str) -> Result<(), Stop> {
    for name in names.split_whitespace() {
        let Ok(text) = fs::read_to_string(rt, name) else {
            return Err(Stop::Outside);
        };
        add_file(rt, case, name, text.into_bytes())?;
    }
    Ok(())
}

// The program's words, with its name.
fn set_words(rt: &HostRuntime, case: &mut Case, text: &str) -> Result<(), Stop> {
    case.words.truncate(1);
    for word in text.split_whitespace() {
        case.words.push(String::from_str(rt.alloc(), word)?)?;
    }
    Ok(())
}

fn number_of(text: &str) -> Result<u32, Stop> {
    text.parse::<u32>().map_err(|_| Stop::Malformed)
}

// One number, or the first one and the last one of several. A case has one series, and no empty one.
fn set_series(case: &mut Case, of: SeriesOf, text: &str) -> Result<(), Stop> {
    let (first, last) = text.split_once('-').unwrap_or((text, text));
    let first = number_of(first)?;
    let Some(end) = number_of(last)?.checked_add(1) else {
        return Err(Stop::Malformed);
    };
    if end <= first || case.series.is_some() {
        return Err(Stop::Malformed);
    }
    case.series = Some(Series { of, first, end });
    Ok(())
}

fn set_failing_series(case: &mut Case, place: &str, calls: &str) -> Result<(), Stop> {
    match place {
        "files" => set_series(case, SeriesOf::FileCalls, calls),
        "input" => set_series(case, SeriesOf::InputCalls, calls),
        "output" => set_series(case, SeriesOf::OutputCalls, calls),
        _ => Err(Stop::Malformed),
    }
}

fn add_failing(case: &mut Case, place: &str, call: &str) -> Result<(), Stop> {
    let Ok(call) = call.parse::<u64>() else {
        return Err(Stop::Malformed);
    };
    match place {
        "files" => case.failing_files.push(call)?,
        "input" => case.failing_input.push(call)?,
        "output" => case.failing_output.push(call)?,
        _ => return Err(Stop::Malformed),
    }
    Ok(())
}

// The call that fails in each run, or a call for each run of a series.
fn set_failing(case: &mut Case, text: &str) -> Result<(), Stop> {
    let Some((place, calls)) = text.split_once(' ') else {
        return Err(Stop::Malformed);
    };
    if calls.contains('-') {
        set_failing_series(case, place, calls)
    } else {
        add_failing(case, place, calls)
    }
}

fn status_of(text: &str) -> Result<u8, Stop> {
    text.parse::<u8>().map_err(|_| Stop::Malformed)
}

// Takes a line that begins with a word.
fn take_word(rt: &HostRuntime, case: &mut Case, word: &str, rest: &str) -> Result<(), Stop> {
    match word {
        "words" => set_words(rt, case, rest)?,
        "files" => add_files(rt, case, rest)?,
        "file" => {
            add_file(rt, case, rest, Vec::new(rt.alloc()))?;
            case.place = Place::File;
        }
        "input" if rest.is_empty() => case.place = Place::Input,
        "fails" => set_failing(case, rest)?,
        "pieces" => case.piece = Some(number_of(rest)?),
        "room" => set_series(case, SeriesOf::Rooms, rest)?,
        "cut" => set_series(case, SeriesOf::Cuts, rest)?,
        "orders" if rest == "both" => case.orders = Orders::Both,
        "orders" if rest == "all" => case.orders = Orders::All,
        "status" => case.status = Some(status_of(rest)?),
        _ => return Err(Stop::Malformed),
    }
    Ok(())
}

// Takes a line of the input, or of the last file.
fn take_given(rt: &HostRuntime, case: &mut Case, count: &str, text: &str) -> Result<(), Stop> {
    if case.place == Place::Input {
        return push_line(rt, &mut case.input, count, text);
    }
    match case.files.last_mut() {
        Some(file) => push_line(rt, &mut file.bytes, count, text),
        None => Err(Stop::Malformed),
    }
}

/// Takes a line of a case. After `Err` the case may have a part of the line.
pub fn take_line(rt: &HostRuntime, case: &mut Case, line: &str) -> Result<(), Stop> {
    let (word, rest) = line.split_once(' ').unwrap_or((line, ""));
    if let Some(count) = word.strip_prefix('|') {
        return take_given(rt, case, count, rest);
    }
    if let Some(count) = word.strip_prefix('=') {
        return push_line(rt, &mut case.output, count, rest);
    }
    if let Some(count) = word.strip_prefix('*') {
        case.mixed = true;
        return push_line(rt, &mut case.output, count, rest);
    }
    take_word(rt, case, word, rest)
}
