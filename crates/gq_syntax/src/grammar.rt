//! What the productions of expressions are read with: constructs nest, so many in one another.

ghost use Rattle.std.specs.Prelude.{◌<◌};
ghost use Rattle.gq_syntax.specs.steps.Nesting.{Nests, Opens};
ghost use Rattle.gq_syntax.specs.steps.Parsers as p;
ghost use Rattle.gq_tokens.specs.Answers.{Reads};
ghost use Rattle.gq_tokens.specs.Parameters.{values_of};

use crate::opening::Production;
use gq_ast::Ast;
use gq_tokens::{Params, Stop, Tokens};
use std::alloc::Global;

/// The productions of expressions.
#[derive(Drop)]
pub(crate) struct Grammar<'p, F> {
    pub(crate) alloc: Global,
    /// What names behind a `$` stand for.
    pub(crate) params: &'p Params,
    /// How many constructs may still nest in one another.
    pub(crate) room: usize,
    /// Reads what stands inside a construct, given the room that is left there.
    pub(crate) nested: F,
}

impl<F: Fn(Global, &Params, &mut Tokens<'_>, usize, Production) -> Result<Ast, Stop>> Grammar<
    '_,
    F,
> {
    /// What stands inside a construct.
    pub(crate) fn inside(&self, tokens: &mut Tokens<'_>, level: Production) -> Result<Ast, Stop>
        requires room { 0 < self.now.room }
        requires nests { Nests self.now.params.now self.now.room (F.pre self.now.nested)
            (F.post self.now.nested) }
        ensures { Reads (p.inside (values_of self.now.params.now) self.now.room level tokens.old)
            result tokens.new }
    {
        (self.nested)(self.alloc, self.params, tokens, self.room - 1, level)
    }

    /// Goes past the token that opens a construct, for which there has to be room.
    pub(crate) fn open(&self, tokens: &mut Tokens<'_>) -> Result<(), Stop>
        ensures { Opens self.now.room tokens.old result tokens.new }
    {
        if self.room == 0 {
            return Err(Stop::Depth);
        }
        tokens.skip();
        Ok(())
    }
}
