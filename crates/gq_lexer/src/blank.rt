//! Whether a text has no tokens.

ghost use Rattle.std.specs.Prelude.{◌≡◌, ◌↔◌, [], Ok, IfOk, IsTrue};
ghost use Rattle.gq_lexer.specs.Tokens.{lexed, lexed_from};

use crate::lexeme::read_lexeme;
use crate::scan::chars_of;
use gq_base::Memory;
use std::alloc::Global;

// Whether these characters are white space and comments alone.
fn are_blank(alloc: Global, chars: &[char]) -> Result<bool, Memory>
    ensures { IfOk result (λ blank. IsTrue blank ↔ (lexed_from 0 chars.now ≡ Ok [])) }
{
    let mut place = 0;
    'lexemes: while place < chars.len() {
        let Some(lexeme) = read_lexeme(alloc, &chars[place..])? else {
            return Ok(false);
        };
        if lexeme.kind.is_some() {
            return Ok(false);
        }
        place += lexeme.size;
    }
    Ok(true)
}

/// Whether a text is white space and comments alone. It reads no further than the first token, and
/// keeps none.
pub fn is_blank(alloc: Global, text: &[u8]) -> Result<bool, Memory>
    ensures { IfOk result (λ blank. IsTrue blank ↔ (lexed text.now ≡ Ok [])) }
{
    let Ok(text) = str::from_utf8(text) else {
        return Ok(false);
    };
    let chars = chars_of(alloc, text)?;
    are_blank(alloc, &chars)
}
