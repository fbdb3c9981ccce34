//! The source texts of parts of a query.
ghost use Rattle.std.specs.Prelude.{◌≡◌, IfOk};
ghost use Rattle.gq_ast.specs.Sources as sources;
ghost use Rattle.gq_ast.specs.Sources.{IsWhole};

use gq_ast::Span;
use gq_base::{Memory, Text, read_text};
use std::alloc::Global;

/// The text of a span that begins and ends between characters.
#[tactic(auto, using(crate::proofs::SourceLemmas::read_there))]
pub fn source_text(alloc: Global, text: &[u8], span: Span) -> Result<Text, Memory>
    ensures { IfOk result (λ t. IsWhole text.now span → t ≡ sources.source_text text.now span) }
{
    match read_text(part(text, span)) {
        Some(text) => Text::new(alloc, text),
        None => Text::new(alloc, ""),
    }
}

#[tactic(auto, using(crate::proofs::SliceLemmas::slicing))]
fn part(text: &[u8], span: Span) -> &[u8]
    ensures { result.now ≡ sources.source_text text.now span }
{
    let end = (span.end as usize).min(text.len());
    let start = (span.start as usize).min(end);
    &text[start..end]
}
