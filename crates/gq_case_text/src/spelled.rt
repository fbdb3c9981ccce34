//! The bytes that the text lines of a case spell.

use crate::case::Stop;

// What one escape of a line spells, with the text behind it.
fn push_escape(bytes: &mut Vec<u8>, escape: &str) -> Result<(), Stop> {
    if let Some(rest) = escape.strip_prefix('r') {
        bytes.push(b'\r')?;
        bytes.extend_from_slice(rest.as_bytes())?;
        return Ok(());
    }
    if let Some(rest) = escape.strip_prefix('t') {
        bytes.push(b'\t')?;
        bytes.extend_from_slice(rest.as_bytes())?;
        return Ok(());
    }
    push_byte(bytes, escape)
}

// A byte by its two hexadecimal digits, behind an x.
fn push_byte(bytes: &mut Vec<u8>, escape: &str) -> Result<(), Stop> {
    let Some((digits, rest)) = escape.split_at_checked(3) else {
        return Err(Stop::Malformed);
    };
    let Some(digits) = digits.strip_prefix('x') else {
        return Err(Stop::Malformed);
    };
    let Ok(byte) = u8::from_str_radix(digits, 16) else {
        return Err(Stop::Malformed);
    };
    bytes.push(byte)?;
    bytes.extend_from_slice(rest.as_bytes())?;
    Ok(())
}

// A line once: a `~` at its end drops the line end, and any other begins an escape.
fn push_once(bytes: &mut Vec<u8>, line: &str) -> Result<(), Stop> {
    let (text, end) = match line.strip_suffix('~') {
        Some(text) => (text, ""),
        None => (line, "\n"),
    };
    let mut pieces = text.split('~');
    if let Some(first) = pieces.next() {
        bytes.extend_from_slice(first.as_bytes())?;
    }
    for escape in pieces {
        push_escape(bytes, escape)?;
    }
    bytes.extend_from_slice(end.as_bytes())?;
    Ok(())
}

// A line so many times.
fn push_equal(rt: &HostRuntime, bytes: &mut Vec<u8>, times: u32, line: &str) -> Result<(), Stop> {
    let mut once = Vec::new(rt.alloc());
    push_once(&mut once, line)?;
    for _turn in 0..times {
        bytes.extend_from_slice(once.as_slice())?;
    }
    Ok(())
}

// A line so many times, with the number of the turn, from 1, in place of each `#`.
fn push_numbered(
    rt: &HostRuntime,
    bytes: &mut Vec<u8>,
    times: u32,
    line: &str,
) -> Result<(), Stop> {
    for turn in 0..times {
        let number = format!(in rt.alloc(); "{}", u64::from(turn) + 1)?;
        push_once(bytes, &line.replace(rt.alloc(), '#', &number)?)?;
    }
    Ok(())
}

/// Appends what a text line spells: `count` is empty, or says how often the line stands, and then each `#` in it is the
/// number of the turn, from 1.
pub fn push_line(
    rt: &HostRuntime,
    bytes: &mut Vec<u8>,
    count: &str,
    line: &str,
) -> Result<(), Stop> {
    if count.is_empty() {
        return push_once(bytes, line);
    }
    let Ok(times) = count.parse::<u32>() else {
        return Err(Stop::Malformed);
    };
    if line.contains('#') {
        push_numbered(rt, bytes, times, line)
    } else {
        push_equal(rt, bytes, times, line)
    }
}
