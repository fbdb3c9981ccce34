//! Sums of products of operands.

ghost use Rattle.gq_syntax.specs.steps.Nesting.{Nests};
ghost use Rattle.gq_syntax.specs.steps.Parsers as p;
ghost use Rattle.gq_tokens.specs.Answers.{Reads, ReadsBeside};

use crate::grammar::Grammar;
use crate::opening::Production;
use gq_ast::{ArithTerm, Ast, AstNode, Term};
use gq_base::{ArithOp, Boxed, List};
use gq_tokens::{Addition, Multiplication, Params, Stop, Tokens, with_many};
use std::alloc::Global;

impl<F: Fn(Global, &Params, &mut Tokens<'_>, usize, Production) -> Result<Ast, Stop>> Grammar<
    '_,
    F,
> {
    // What stands behind a sign of multiplication.
    #[tactic(auto, unfolding(crate::specs::steps::Parsers::multiplied))]
    fn multiplied(&self, tokens: &mut Tokens<'_>, op: ArithOp) -> Result<ArithTerm, Stop>
        requires nests { Nests self.now.params.now self.now.room (F.pre self.now.nested)
            (F.post self.now.nested) }
        ensures { Reads (p.here p.multiplied self.now.params.now self.now.room op tokens.old)
            result tokens.new }
    {
        let tree = self.signed(tokens)?;
        Ok(Term { op, tree })
    }

    // What was read, and any number of multiplications.
    #[tactic(auto, unfolding(crate::specs::steps::Parsers::multiplications))]
    fn multiplications(
        &self,
        tokens: &mut Tokens<'_>,
        first: Ast,
    ) -> Result<(Ast, List<ArithTerm>), Stop>
        requires nests { Nests self.now.params.now self.now.room (F.pre self.now.nested)
            (F.post self.now.nested) }
        ensures { ReadsBeside first
            (p.here p.multiplications self.now.params.now self.now.room
            tokens.old) result tokens.new }
    {
        with_many(
            self.alloc,
            tokens,
            first,
            Multiplication,
            |tokens, op| self.multiplied(tokens, op),
        )
    }

    // A product.
    #[tactic(auto, unfolding(crate::specs::steps::Parsers::product))]
    fn product(&self, tokens: &mut Tokens<'_>) -> Result<Ast, Stop>
        requires nests { Nests self.now.params.now self.now.room (F.pre self.now.nested)
            (F.post self.now.nested) }
        ensures { Reads (p.here p.product self.now.params.now self.now.room
            tokens.old)
            result tokens.new }
    {
        let start = tokens.left();
        let first = self.signed(tokens)?;
        let (first, more) = self.multiplications(tokens, first)?;
        if more.is_empty() {
            return Ok(first);
        }
        let node = AstNode::Product(Boxed::new(self.alloc, first)?, more);
        let span = tokens.span_since(start);
        Ok(Ast { node, span })
    }

    // What stands behind a sign of addition.
    #[tactic(auto, unfolding(crate::specs::steps::Parsers::added))]
    fn added(&self, tokens: &mut Tokens<'_>, op: ArithOp) -> Result<ArithTerm, Stop>
        requires nests { Nests self.now.params.now self.now.room (F.pre self.now.nested)
            (F.post self.now.nested) }
        ensures { Reads (p.here p.added self.now.params.now self.now.room op tokens.old)
            result tokens.new }
    {
        let tree = self.product(tokens)?;
        Ok(Term { op, tree })
    }

    // What was read, and any number of additions.
    #[tactic(auto, unfolding(crate::specs::steps::Parsers::additions))]
    fn additions(&self, tokens: &mut Tokens<'_>, first: Ast) -> Result<(Ast, List<ArithTerm>), Stop>
        requires nests { Nests self.now.params.now self.now.room (F.pre self.now.nested)
            (F.post self.now.nested) }
        ensures { ReadsBeside first (p.here p.additions self.now.params.now self.now.room
            tokens.old)
            result tokens.new }
    {
        with_many(self.alloc, tokens, first, Addition, |tokens, op| {
            self.added(tokens, op)
        })
    }

    /// A sum.
    #[tactic(auto, unfolding(crate::specs::steps::Parsers::sum))]
    pub(crate) fn sum(&self, tokens: &mut Tokens<'_>) -> Result<Ast, Stop>
        requires nests { Nests self.now.params.now self.now.room (F.pre self.now.nested)
            (F.post self.now.nested) }
        ensures { Reads (p.here p.sum self.now.params.now self.now.room
            tokens.old)
            result tokens.new }
    {
        let start = tokens.left();
        let first = self.product(tokens)?;
        let (first, more) = self.additions(tokens, first)?;
        if more.is_empty() {
            return Ok(first);
        }
        let node = AstNode::Sum(Boxed::new(self.alloc, first)?, more);
        let span = tokens.span_since(start);
        Ok(Ast { node, span })
    }
}
