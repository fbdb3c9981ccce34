//! The lexeme that a text begins with.

ghost use Rattle.std.specs.Prelude.{◌≡◌, ◌+◌, ◌<◌, ◌≤◌, length, IfOk, IfSome};
ghost use Rattle.gq_lexer.specs.Lexemes.{quoted_at, string_at, slash_at, word_at, lexeme};

use crate::number::read_number;
use crate::run::{RunForm, extent, spell};
use crate::sign::read_sign;
use crate::token::{Sign, TokenKind};
use gq_base::{Memory, is_word_start};
use std::alloc::Global;

/// A lexeme: how many characters it takes, and its token; none for white space and comments.
#[derive(Drop)]
pub(crate) struct Lexeme {
    pub(crate) size: usize,
    pub(crate) kind: Option<TokenKind>,
}

// A word.
fn read_word(alloc: Global, rest: &[char]) -> Result<Option<Lexeme>, Memory>
    ensures value { IfOk result (λ r. r ≡ word_at rest.now) }
    ensures size { IfOk result (λ r. IfSome r (λ l. l.size ≤ length rest.now)) }
{
    let word = spell(alloc, RunForm::Word, rest)?;
    Ok(Some(Lexeme {
        size: word.size,
        kind: Some(TokenKind::Word(word.text)),
    }))
}

// What stands in backquotes, behind the first.
fn read_quoted(alloc: Global, behind: &[char]) -> Result<Option<Lexeme>, Memory>
    ensures value { IfOk result (λ r. r ≡ quoted_at behind.now) }
    ensures size { IfOk result (λ r.
        IfSome r (λ l. (0 < l.size) × (l.size ≤ length behind.now + 1))) }
{
    let name = spell(alloc, RunForm::Quoted, behind)?;
    if name.size == 0 || behind.get(name.size) != Some(&'`') {
        return Ok(None);
    }
    Ok(Some(Lexeme {
        size: name.size + 2,
        kind: Some(TokenKind::Quoted(name.text)),
    }))
}

// A string, behind its first quote.
fn read_string(alloc: Global, quote: char, behind: &[char]) -> Result<Option<Lexeme>, Memory>
    ensures value { IfOk result (λ r. r ≡ string_at quote behind.now) }
    ensures size { IfOk result (λ r.
        IfSome r (λ l. (0 < l.size) × (l.size ≤ length behind.now + 1))) }
{
    let value = spell(alloc, RunForm::Str(quote), behind)?;
    if behind.get(value.size) != Some(&quote) {
        return Ok(None);
    }
    Ok(Some(Lexeme {
        size: value.size + 2,
        kind: Some(TokenKind::Str(value.text)),
    }))
}

// A comment or the sign, behind the slash.
fn read_slash(behind: &[char]) -> Option<Lexeme>
    ensures value { result ≡ slash_at behind.now }
    ensures size { IfSome result (λ l. (0 < l.size) × (l.size ≤ length behind.now + 1)) }
{
    match behind {
        ['/', comment @ ..] => Some(Lexeme {
            size: extent(RunForm::Line, comment) + 2,
            kind: None,
        }),
        ['*', comment @ ..] => {
            let size = extent(RunForm::Block, comment);
            if comment.get(size) != Some(&'*') || comment.get(size + 1) != Some(&'/') {
                return None;
            }
            Some(Lexeme {
                size: size + 4,
                kind: None,
            })
        }
        _ => Some(Lexeme {
            size: 1,
            kind: Some(TokenKind::Sign(Sign::Slash)),
        }),
    }
}

/// The lexeme that a text begins with; none where it fails, and none where there is no text.
pub(crate) fn read_lexeme(alloc: Global, rest: &[char]) -> Result<Option<Lexeme>, Memory>
    ensures value { IfOk result (λ r. r ≡ lexeme rest.now) }
    ensures size { IfOk result (λ r. IfSome r (λ l. (0 < l.size) × (l.size ≤ length rest.now))) }
{
    let Some(&first) = rest.first() else {
        return Ok(None);
    };
    let behind = &rest[1..];
    if first.is_whitespace() {
        return Ok(Some(Lexeme {
            size: 1,
            kind: None,
        }));
    }
    if is_word_start(first) {
        return read_word(alloc, rest);
    }
    if first.is_ascii_digit() {
        return Ok(read_number(rest));
    }
    match first {
        '`' => read_quoted(alloc, behind),
        '\'' | '"' => read_string(alloc, first, behind),
        '/' => Ok(read_slash(behind)),
        _ => Ok(read_sign(first, behind)),
    }
}
