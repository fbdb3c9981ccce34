//! Statements of white space and comments.

ghost use Rattle.std.specs.Prelude.{◌≡◌, ◌↔◌, IfOk, IsTrue};
ghost use Rattle.std.specs.List.{list_all};
ghost use Rattle.gq_reply.specs.Replies.{IsBlank};
ghost use Rattle.gq_reply.specs.steps.Gaps.{is_gap};
ghost use Rattle.gq_syntax.specs.Outcomes.{SyntaxAt};

use gq_base::Memory;
use std::alloc::Global;

/// Whether a statement is spaces, tabs and line ends alone, as what is left of an input behind the
/// last `;` mostly is. It takes no memory.
pub fn is_white(statement: &[u8]) -> bool
    ensures { result ≡ list_all is_gap statement.now }
{
    statement.iter().all(|byte| is_gap(*byte))
}

fn is_gap(byte: u8) -> bool
    ensures { result ≡ is_gap byte }
{
    matches!(byte, b' ' | b'\t' | b'\n' | b'\r')
}

/// Whether a statement that goes wrong at a place is white space and comments alone: such a one ends
/// there, so that others are not read again.
pub fn is_blank(alloc: Global, statement: &[u8], at: u32) -> Result<bool, Memory>
    requires cause { SyntaxAt statement.now at }
    ensures { IfOk result (λ blank. IsTrue blank ↔ IsBlank statement.now) }
{
    if (at as usize) < statement.len() {
        return Ok(false);
    }
    gq_lexer::is_blank(alloc, statement)
}
