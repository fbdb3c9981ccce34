//! Operands with their signs: an atom, as a literal, a name, a call, EXISTS or what stands in parentheses.

ghost use Rattle.std.specs.Prelude.{◌<◌};
ghost use Rattle.gq_syntax.specs.steps.Nesting.{Nests};
ghost use Rattle.gq_syntax.specs.steps.Parsers as p;
ghost use Rattle.gq_tokens.specs.Answers.{Reads};

use crate::grammar::Grammar;
use crate::opening::Production;
use crate::patterns::path;
use gq_ast::{Ast, AstNode};
use gq_base::{Boxed, List, Literal, Text};
use gq_lexer::Sign;
use gq_tokens::{Params, Stop, Tokens, listed};
use std::alloc::Global;

impl<F: Fn(Global, &Params, &mut Tokens<'_>, usize, Production) -> Result<Ast, Stop>> Grammar<
    '_,
    F,
> {
    // An expression and the parenthesis that closes it.
    #[tactic(auto, unfolding(crate::specs::steps::Parsers::grouped))]
    fn grouped(&self, tokens: &mut Tokens<'_>) -> Result<AstNode<Ast>, Stop>
        requires room { 0 < self.now.room }
        requires nests { Nests self.now.params.now self.now.room (F.pre self.now.nested)
            (F.post self.now.nested) }
        ensures { Reads (p.here p.grouped self.now.params.now self.now.room
            tokens.old)
            result tokens.new }
    {
        let tree = self.inside(tokens, Production::Expr)?;
        let tree = tokens.closed(tree, Sign::RightParen)?;
        Ok(AstNode::Paren(Boxed::new(self.alloc, tree)?))
    }

    // One or more arguments, with commas between them.
    #[tactic(auto, unfolding(crate::specs::steps::Parsers::arguments))]
    fn arguments(&self, tokens: &mut Tokens<'_>) -> Result<List<Ast>, Stop>
        requires room { 0 < self.now.room }
        requires nests { Nests self.now.params.now self.now.room (F.pre self.now.nested)
            (F.post self.now.nested) }
        ensures { Reads (p.here p.arguments self.now.params.now self.now.room
            tokens.old)
            result tokens.new }
    {
        listed(self.alloc, tokens, |tokens| {
            self.inside(tokens, Production::Expr)
        })
    }

    // The arguments of a call and the parenthesis that closes it.
    #[tactic(auto, unfolding(crate::specs::steps::Parsers::passed))]
    fn passed(&self, tokens: &mut Tokens<'_>) -> Result<List<Ast>, Stop>
        requires room { 0 < self.now.room }
        requires nests { Nests self.now.params.now self.now.room (F.pre self.now.nested)
            (F.post self.now.nested) }
        ensures { Reads (p.here p.passed self.now.params.now self.now.room
            tokens.old)
            result tokens.new }
    {
        if tokens.take_sign(Sign::RightParen) {
            return Ok(List::new(self.alloc));
        }
        let found = self.arguments(tokens)?;
        tokens.closed(found, Sign::RightParen)
    }

    // What a name begins: a call, a property or a variable.
    #[tactic(auto, using(gq_tokens::proofs::Loops::nest_opens, gq_tokens::proofs::Loops::nest_deep, gq_tokens::proofs::Loops::nest_other), unfolding(crate::specs::steps::Parsers::named))]
    fn named(&self, tokens: &mut Tokens<'_>, name: Text) -> Result<AstNode<Ast>, Stop>
        requires nests { Nests self.now.params.now self.now.room (F.pre self.now.nested)
            (F.post self.now.nested) }
        ensures { Reads (p.here p.named self.now.params.now self.now.room name
            tokens.old)
            result tokens.new }
    {
        if tokens.sees_sign(Sign::LeftParen) {
            self.open(tokens)?;
            let arguments = self.passed(tokens)?;
            return Ok(AstNode::Call(name, arguments));
        }
        if tokens.take_sign(Sign::Dot) {
            let key = tokens.expect_called()?;
            return Ok(AstNode::Property(name, key));
        }
        Ok(AstNode::Variable(name))
    }

    // What stands behind EXISTS.
    #[tactic(auto, unfolding(crate::specs::steps::Parsers::existing))]
    fn existing(&self, tokens: &mut Tokens<'_>) -> Result<AstNode<Ast>, Stop>
        ensures { Reads (p.here p.existing self.now.params.now self.now.room tokens.old)
            result tokens.new }
    {
        tokens.expect_sign(Sign::LeftParen)?;
        let path = path(self.alloc, self.params, tokens, false)?;
        let path = tokens.closed(path, Sign::RightParen)?;
        Ok(AstNode::Exists(path))
    }

    // An atom.
    #[tactic(auto, using(gq_tokens::proofs::Loops::nest_opens, gq_tokens::proofs::Loops::nest_deep, gq_tokens::proofs::Loops::nest_other), unfolding(crate::specs::steps::Parsers::atom))]
    fn atom(&self, tokens: &mut Tokens<'_>) -> Result<AstNode<Ast>, Stop>
        requires nests { Nests self.now.params.now self.now.room (F.pre self.now.nested)
            (F.post self.now.nested) }
        ensures { Reads (p.here p.atom self.now.params.now self.now.room
            tokens.old)
            result tokens.new }
    {
        if tokens.sees_sign(Sign::LeftParen) {
            self.open(tokens)?;
            return self.grouped(tokens);
        }
        if let Some(value) = tokens.take_plain()? {
            return Ok(AstNode::Literal(value));
        }
        if tokens.take_sign(Sign::Dollar) {
            return Ok(AstNode::Literal(tokens.expect_value(self.params)?));
        }
        if tokens.take_word("EXISTS") {
            return self.existing(tokens);
        }
        let name = tokens.expect_name()?;
        self.named(tokens, name)
    }

    // What stands behind a minus sign, negated.
    #[tactic(auto, unfolding(crate::specs::steps::Parsers::negated))]
    fn negated(&self, tokens: &mut Tokens<'_>) -> Result<AstNode<Ast>, Stop>
        requires room { 0 < self.now.room }
        requires nests { Nests self.now.params.now self.now.room (F.pre self.now.nested)
            (F.post self.now.nested) }
        ensures { Reads (p.here p.negated self.now.params.now self.now.room
            tokens.old)
            result tokens.new }
    {
        if tokens.take_big() {
            return Ok(AstNode::Literal(Literal::Int(i64::MIN)));
        }
        let operand = self.inside(tokens, Production::Sign)?;
        Ok(AstNode::Negate(Boxed::new(self.alloc, operand)?))
    }

    // An operand with its signs, without its place.
    #[tactic(auto, using(gq_tokens::proofs::Loops::nest_opens, gq_tokens::proofs::Loops::nest_deep, gq_tokens::proofs::Loops::nest_other), unfolding(crate::specs::steps::Parsers::operand))]
    fn operand(&self, tokens: &mut Tokens<'_>) -> Result<AstNode<Ast>, Stop>
        requires nests { Nests self.now.params.now self.now.room (F.pre self.now.nested)
            (F.post self.now.nested) }
        ensures { Reads (p.here p.operand self.now.params.now self.now.room
            tokens.old)
            result tokens.new }
    {
        if tokens.sees_sign(Sign::Plus) {
            self.open(tokens)?;
            let operand = self.inside(tokens, Production::Sign)?;
            return Ok(AstNode::Plus(Boxed::new(self.alloc, operand)?));
        }
        if tokens.sees_sign(Sign::Minus) {
            self.open(tokens)?;
            return self.negated(tokens);
        }
        self.atom(tokens)
    }

    /// An operand with its signs.
    #[tactic(auto, unfolding(crate::specs::steps::Parsers::signed))]
    pub(crate) fn signed(&self, tokens: &mut Tokens<'_>) -> Result<Ast, Stop>
        requires nests { Nests self.now.params.now self.now.room (F.pre self.now.nested)
            (F.post self.now.nested) }
        ensures { Reads (p.here p.signed self.now.params.now self.now.room
            tokens.old)
            result tokens.new }
    {
        let start = tokens.left();
        let node = self.operand(tokens)?;
        let span = tokens.span_since(start);
        Ok(Ast { node, span })
    }
}
