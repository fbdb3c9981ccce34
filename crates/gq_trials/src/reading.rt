//! Reads case files line by line, and tries each case where the next one begins.

ghost use Rattle.std.specs.Prelude.{◌≡◌};

use crate::trial::{Got, difference};
use gq_case_text::{Case, Place, Stop, take_line};
use std::fs;

/// How many cases do what they are to do, and how many do not.
#[derive(Clone, Copy)]
pub struct Tally {
    pub agree: u64,
    pub differ: u64,
}

impl Tally {
    /// No cases.
    pub fn new() -> Tally
        ensures agree { result.agree ≡ 0 }
        ensures differ { result.differ ≡ 0 }
    {
        Tally {
            agree: 0,
            differ: 0,
        }
    }

    fn count(&mut self, agree: bool) {
        if agree {
            self.agree = self.agree.saturating_add(1);
        } else {
            self.differ = self.differ.saturating_add(1);
        }
    }
}

fn shown(bytes: &[u8]) -> &str {
    str::from_utf8(bytes).unwrap_or("(no text)\n")
}

// The file of a case, the line where it begins, and its title.
#[derive(Clone, Copy)]
struct Heading<'t> {
    file: &'t str,
    line: usize,
    title: &'t str,
}

fn tell(rt: &HostRuntime, at: Heading<'_>, case: &Case, got: &Got) -> Result<(), Stop> {
    let printed = println!(rt;
        "{} line {}: {}\n{}wanted, with status {}:\n{}got, with status {}, in pieces of {}, in the order {}, with the number {}:\n{}",
        at.file,
        at.line,
        at.title,
        shown(case.input.as_slice()),
        case.wanted_status(),
        shown(case.output.as_slice()),
        got.status,
        got.piece,
        got.order,
        got.number,
        shown(got.output.as_slice())
    );
    printed.map_err(|_| Stop::Outside)
}

fn try_case(rt: &HostRuntime, at: Heading<'_>, case: &Case, tally: &mut Tally) -> Result<(), Stop> {
    let got = difference(rt.alloc(), case)?;
    tally.count(got.is_none());
    match got {
        None => Ok(()),
        Some(got) => tell(rt, at, case, &got),
    }
}

// What is read of a case file: the lines before its first case, which hold for all of them, and the case that has begun,
// with its lines. The line 0 is that of no case.
#[derive(Drop)]
struct Reader<'t> {
    head: Vec<&'t str>,
    own: Vec<&'t str>,
    at: Heading<'t>,
}

// Takes lines, of which the first has this number. A line of no form is told.
fn take_lines(
    rt: &HostRuntime,
    file: &str,
    case: &mut Case,
    first: usize,
    lines: &[&str],
) -> Result<(), Stop> {
    for (place, line) in lines.iter().enumerate() {
        if line.is_empty() || line.starts_with('#') {
            continue;
        }
        if let Err(stop) = take_line(rt, case, line) {
            let number = first.saturating_add(place);
            let _ = println!(rt; "{file} line {number}: {stop:?}");
            return Err(stop);
        }
    }
    Ok(())
}

impl<'t> Reader<'t> {
    // Tries the case that has begun, where there is one.
    fn finish(&self, rt: &HostRuntime, tally: &mut Tally) -> Result<(), Stop> {
        let Heading { file, line, .. } = self.at;
        if line == 0 {
            return Ok(());
        }
        let mut case = Case::new(rt.alloc())?;
        take_lines(rt, file, &mut case, 1, self.head.as_slice())?;
        case.place = Place::Input;
        take_lines(
            rt,
            file,
            &mut case,
            line.saturating_add(1),
            self.own.as_slice(),
        )?;
        try_case(rt, self.at, &case, tally)
    }

    // Without a title of its own a case has that of the case before.
    fn begin(&mut self, line: usize, title: &'t str) {
        self.own.clear();
        self.at.line = line;
        if !title.is_empty() {
            self.at.title = title;
        }
    }

    fn push(&mut self, text: &'t str) -> Result<(), Stop> {
        if self.at.line == 0 {
            self.head.push(text)?;
        } else {
            self.own.push(text)?;
        }
        Ok(())
    }
}

fn try_lines(rt: &HostRuntime, file: &str, text: &str, tally: &mut Tally) -> Result<(), Stop> {
    let mut reader = Reader {
        head: Vec::new(rt.alloc()),
        own: Vec::new(rt.alloc()),
        at: Heading {
            file,
            line: 0,
            title: "",
        },
    };
    for (place, text) in text.lines().enumerate() {
        let (word, title) = text.split_once(' ').unwrap_or((text, ""));
        if word == "case" {
            reader.finish(rt, tally)?;
            reader.begin(place.saturating_add(1), title);
        } else {
            reader.push(text)?;
        }
    }
    reader.finish(rt, tally)
}

// Tries the cases of a file that lies where the program runs, prints those that differ and how many agree, and counts
// them. It stops at a file that cannot be read and at a line of no form, and prints which.
fn try_file(rt: &HostRuntime, file: &str, tally: &mut Tally) -> Result<(), Stop> {
    let Ok(text) = fs::read_to_string(rt, file) else {
        let _ = println!(rt; "{file}: cannot be read");
        return Err(Stop::Outside);
    };
    let before = tally.agree;
    try_lines(rt, file, &text, tally)?;
    println!(rt; "{file}: {} agree", tally.agree.saturating_sub(before)).map_err(|_| Stop::Outside)
}

/// Tries the case files that the standard input names, one a line: prints each case that differs, and how many of each file
/// agree, and counts them. It answers false where it stops: at a file that cannot be read or a line of no form, which it
/// prints, and for want of memory.
pub fn try_named(rt: &HostRuntime, tally: &mut Tally) -> bool {
    for line in rt.lines(rt.alloc()) {
        let Ok(name) = line else {
            return false;
        };
        if try_file(rt, name.as_str(), tally).is_err() {
            return false;
        }
    }
    true
}
