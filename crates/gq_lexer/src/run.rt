//! Runs of characters: a word, and what stands in quotes or in a comment.

ghost use Rattle.std.specs.Prelude.{◌≡◌, ◌+◌, ◌<◌, ◌≤◌, length, IfOk, IfSome};
ghost use Rattle.std.specs.Str.{encode_utf8_all};
ghost use Rattle.gq_lexer.specs.Runs.{escape, escape_value, code_piece, piece, run};

use crate::number::read_digits;
use gq_base::{Memory, Text, is_word_part};
use std::alloc::Global;

/// What a run consists of.
#[derive(Clone, Copy)]
pub(crate) enum RunForm {
    /// Characters of a word.
    Word,
    /// What stands in backquotes: two are one, and one ends it.
    Quoted,
    /// What stands in a string with this quote.
    Str(char),
    /// A comment to the end of its line.
    Line,
    /// A comment to the next `*/`.
    Block,
}

/// A part of a run: how many characters it takes, and the one that it stands for.
#[derive(Clone, Copy)]
pub(crate) struct Piece {
    pub(crate) size: usize,
    pub(crate) value: char,
}

// What the character behind a backslash stands for, where no code follows.
fn escape_value(c: char) -> Option<char>
    ensures { result ≡ escape_value c }
{
    match c {
        '\\' | '\'' | '"' => Some(c),
        'b' => Some('\u{8}'),
        'f' => Some('\u{c}'),
        'n' => Some('\n'),
        'r' => Some('\r'),
        't' => Some('\t'),
        _ => None,
    }
}

// The piece of an escape by a code of so many hexadecimal digits, which stand at the front.
fn code_piece(count: usize, rest: &[char]) -> Option<Piece>
    ensures value { result ≡ code_piece count rest.now }
    ensures size { IfSome result (λ p. (0 < p.size) × (p.size ≤ length rest.now + 2)) }
{
    let code = read_digits(16, &rest[..count.min(rest.len())]);
    if code.size < count {
        return None;
    }
    match char::from_u32(u32::try_from(code.value).ok()?) {
        Some(value) => Some(Piece {
            size: count + 2,
            value,
        }),
        None => None,
    }
}

// The piece of an escape, behind its backslash.
fn escape(rest: &[char]) -> Option<Piece>
    ensures value { result ≡ escape rest.now }
    ensures size { IfSome result (λ p. (0 < p.size) × (p.size ≤ length rest.now + 1)) }
{
    match rest {
        [] => None,
        ['u', digits @ ..] => code_piece(4, digits),
        ['U', digits @ ..] => code_piece(8, digits),
        [c, ..] => match escape_value(*c) {
            Some(value) => Some(Piece { size: 2, value }),
            None => None,
        },
    }
}

// The piece that a run goes on with, where it goes on.
fn next_piece(form: RunForm, rest: &[char]) -> Option<Piece>
    ensures value { result ≡ piece form rest.now }
    ensures size { IfSome result (λ p. (0 < p.size) × (p.size ≤ length rest.now)) }
{
    let Some(&value) = rest.first() else {
        return None;
    };
    let behind = &rest[1..];
    let one = Some(Piece { size: 1, value });
    match form {
        RunForm::Word if is_word_part(value) => one,
        RunForm::Quoted if value != '`' => one,
        RunForm::Quoted if behind.first() == Some(&'`') => Some(Piece { size: 2, value }),
        RunForm::Str(quote) if value == quote => None,
        RunForm::Str(_) if value == '\\' => escape(behind),
        RunForm::Str(_) => one,
        RunForm::Line if value != '\n' && value != '\r' => one,
        RunForm::Block if value != '*' || behind.first() != Some(&'/') => one,
        _ => None,
    }
}

/// What a run stands for, and how many characters it takes.
#[derive(Drop)]
pub(crate) struct Spelled {
    pub(crate) text: Text,
    pub(crate) size: usize,
}

/// Reads the run that stands at the front of a text, as many pieces as there are.
pub(crate) fn spell(alloc: Global, form: RunForm, rest: &[char]) -> Result<Spelled, Memory>
    ensures text { IfOk result (λ s. s.text ≡ encode_utf8_all (run form rest.now).values) }
    ensures size { IfOk result (λ s. s.size ≡ (run form rest.now).size) }
    ensures within { IfOk result (λ s. s.size ≤ length rest.now) }
{
    let mut text = String::new(alloc);
    let mut size = 0;
    'pieces: while let Some(piece) = next_piece(form, &rest[size..]) {
        text.push(piece.value)?;
        size += piece.size;
    }
    Ok(Spelled {
        text: Text::from_string(text),
        size,
    })
}

/// How many characters the run at the front of a text takes.
pub(crate) fn extent(form: RunForm, rest: &[char]) -> usize
    ensures size { result ≡ (run form rest.now).size }
    ensures within { result ≤ length rest.now }
{
    let mut size = 0;
    'pieces: while let Some(piece) = next_piece(form, &rest[size..]) {
        size += piece.size;
    }
    size
}
