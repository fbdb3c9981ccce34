//! The tokens of a text, lexeme by lexeme.

ghost use Rattle.std.specs.Prelude.{◌≡◌, ◌+◌, ◌^◌, ◌<◌, ◌≤◌, ◌++◌, length, IfOk, OnOk};
ghost use Rattle.std.specs.Str.{chars};
ghost use Rattle.gq_lexer.specs.Tokens.{Answers, InOrder, lexed, lexed_from, tokens_of, width};

use crate::lexeme::{Lexeme, read_lexeme};
use crate::token::{LexRefusal, Token, TokenKind};
use gq_ast::Span;
use gq_base::{List, Memory};
use std::alloc::Global;

// How many bytes these characters take.
fn width(chars: &[char]) -> u32
    requires { width chars.now < 2 ^ 32 }
    ensures { result ≡ width chars.now }
{
    let mut width = 0;
    for c in chars {
        width += c.len_utf8() as u32;
    }
    width
}

// Appends the token of a lexeme, if it is one.
fn push_token(tokens: &mut List<Token>, kind: Option<TokenKind>, span: Span) -> Result<(), Memory>
    ensures { OnOk result (tokens.new ≡ tokens.old ++ tokens_of kind span) }
{
    match kind {
        Some(kind) => tokens.push(Token { kind, span }),
        None => Ok(()),
    }
}

// The tokens of these characters.
fn lex_chars(alloc: Global, chars: &[char]) -> Result<List<Token>, LexRefusal>
    requires { width chars.now < 2 ^ 32 }
    ensures outcome { Answers (lexed_from 0 chars.now) result }
    ensures order { IfOk result (λ tokens. InOrder 0 (width chars.now) tokens) }
{
    let mut tokens = List::new(alloc);
    let mut place = 0;
    let mut at = 0;
    'lexemes: while place < chars.len() {
        let rest = &chars[place..];
        let Some(lexeme) = read_lexeme(alloc, rest)? else {
            return Err(LexRefusal::Lex { at });
        };
        let Lexeme { size, kind } = lexeme;
        let end = at + width(&rest[..size]);
        push_token(&mut tokens, kind, Span { start: at, end })?;
        place += size;
        at = end;
    }
    Ok(tokens)
}

/// The characters of a text.
pub(crate) fn chars_of(alloc: Global, text: &str) -> Result<Vec<char>, Memory>
    ensures { IfOk result (λ all. all.items ≡ chars text.now) }
{
    let all = text.chars().collect(alloc)?;
    Ok(all)
}

/// The tokens of a text, in order, or the place where it fails. It takes time in proportion to the text.
pub fn lex(alloc: Global, text: &[u8]) -> Result<List<Token>, LexRefusal>
    requires { length text.now ≤ 65536 }
    ensures outcome { Answers (lexed text.now) result }
    ensures order { IfOk result (λ tokens. InOrder 0 (length text.now) tokens) }
{
    let text = match str::from_utf8(text) {
        Ok(text) => text,
        Err(error) => {
            return Err(LexRefusal::Lex {
                at: error.valid_up_to() as u32,
            });
        }
    };
    let chars = chars_of(alloc, text)?;
    lex_chars(alloc, &chars)
}
