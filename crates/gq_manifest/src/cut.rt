//! The cut of a manifest into lines, and of a line into words.
ghost use Rattle.std.specs.Prelude.{◌≡◌, ◌==◌, ◌<◌, ◌∷◌, length, map, position, IfOk, IfSome};
ghost use Rattle.std.specs.List.{list_all};
ghost use Rattle.std.specs.Str.Lines.{lines, strip_carriage_return};
ghost use Rattle.gq_manifest.specs.Lines.{is_blank, is_skipped, words_of};

use std::alloc::{AllocError, Global};

/// The first line of a text that is not empty, without its end, and what follows it.
pub(crate) fn cut_line(text: &[u8]) -> (&[u8], &[u8])
    requires { 0 < length text.now }
    ensures line { lines text.now ≡ result.0.now ∷ lines result.1.now }
    ensures shorter { length result.1.now < length text.now }
{
    match end_of_line(text) {
        Some(end) => (without_cr(&text[..end]), &text[end + 1..]),
        None => (text, &[]),
    }
}

// The place of the first LF.
fn end_of_line(text: &[u8]) -> Option<usize>
    ensures value { result ≡ position (λ b. b == 10) text.now }
    ensures within { IfSome result (λ end. end < length text.now) }
{
    text.iter().position(|b| *b == b'\n')
}

// A line without the CR at its end, if it has one.
fn without_cr(line: &[u8]) -> &[u8]
    ensures { result.now ≡ strip_carriage_return line.now }
{
    match line {
        [front @ .., b'\r'] => front,
        _ => line,
    }
}

/// Whether a line is a comment, or has no words.
pub(crate) fn is_skipped(line: &[u8]) -> bool
    ensures { result ≡ is_skipped line.now }
{
    line.starts_with(b"#") || are_blank(line)
}

fn are_blank(line: &[u8]) -> bool
    ensures { result ≡ list_all is_blank line.now }
{
    line.iter().all(|b| is_blank(*b))
}

fn is_blank(byte: u8) -> bool
    ensures { result ≡ is_blank byte }
{
    matches!(byte, b' ' | b'\t')
}

/// The words of a line.
pub(crate) fn words_of(alloc: Global, line: &[u8]) -> Result<Vec<&[u8]>, AllocError>
    ensures { IfOk result (λ words. map (λ w. w.now) words.items ≡ words_of line.now) }
{
    line.split(|b| is_blank(*b))
        .filter(|word| !word.is_empty())
        .collect(alloc)
}
