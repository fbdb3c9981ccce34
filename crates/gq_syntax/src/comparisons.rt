//! Comparisons of sums with their tests.

ghost use Rattle.gq_syntax.specs.steps.Nesting.{Nests};
ghost use Rattle.gq_syntax.specs.steps.Parsers as p;
ghost use Rattle.gq_tokens.specs.Answers.{Reads, ReadsBeside};
ghost use Rattle.gq_tokens.specs.Words as words;

use crate::grammar::Grammar;
use crate::opening::Production;
use gq_ast::{Ast, AstNode, AstTester, CompareTerm, Term, Tester};
use gq_base::{Boxed, CompareOp, List, TextTest};
use gq_tokens::{Comparison, Params, Stop, TestWord, Tests, Tokens, has_with, list, with_many};
use std::alloc::Global;

impl<F: Fn(Global, &Params, &mut Tokens<'_>, usize, Production) -> Result<Ast, Stop>> Grammar<
    '_,
    F,
> {
    // A test of a text, behind its first word.
    #[tactic(auto, unfolding(crate::specs::steps::Parsers::tested_text))]
    fn tested_text(&self, tokens: &mut Tokens<'_>, test: TextTest) -> Result<AstTester, Stop>
        requires nests { Nests self.now.params.now self.now.room (F.pre self.now.nested)
            (F.post self.now.nested) }
        ensures { Reads (p.here p.tested_text self.now.params.now self.now.room (words.has_with test) test
            tokens.old)
            result tokens.new }
    {
        if has_with(test) {
            tokens.expect_word("WITH")?;
        }
        let part = self.sum(tokens)?;
        Ok(Tester::Text(test, part))
    }

    // A test, behind its first word.
    #[tactic(auto, unfolding(crate::specs::steps::Parsers::tested))]
    fn tested(&self, tokens: &mut Tokens<'_>, word: TestWord) -> Result<AstTester, Stop>
        requires nests { Nests self.now.params.now self.now.room (F.pre self.now.nested)
            (F.post self.now.nested) }
        ensures { Reads (p.here p.tested self.now.params.now self.now.room word
            tokens.old)
            result tokens.new }
    {
        match word {
            TestWord::Is => {
                let not = tokens.take_word("NOT");
                tokens.expect_word("NULL")?;
                Ok(if not {
                    Tester::IsNotNull
                } else {
                    Tester::IsNull
                })
            }
            TestWord::In => Ok(Tester::Member(list(self.alloc, tokens, self.params)?)),
            TestWord::Text(test) => self.tested_text(tokens, test),
        }
    }

    // What was read, and any number of tests.
    #[tactic(auto, unfolding(crate::specs::steps::Parsers::testers))]
    fn testers(&self, tokens: &mut Tokens<'_>, first: Ast) -> Result<(Ast, List<AstTester>), Stop>
        requires nests { Nests self.now.params.now self.now.room (F.pre self.now.nested)
            (F.post self.now.nested) }
        ensures { ReadsBeside first (p.here p.testers self.now.params.now self.now.room
            tokens.old)
            result tokens.new }
    {
        with_many(self.alloc, tokens, first, Tests, |tokens, word| {
            self.tested(tokens, word)
        })
    }

    // A sum and its tests.
    #[tactic(auto, unfolding(crate::specs::steps::Parsers::tests))]
    fn tests(&self, tokens: &mut Tokens<'_>) -> Result<Ast, Stop>
        requires nests { Nests self.now.params.now self.now.room (F.pre self.now.nested)
            (F.post self.now.nested) }
        ensures { Reads (p.here p.tests self.now.params.now self.now.room
            tokens.old)
            result tokens.new }
    {
        let start = tokens.left();
        let first = self.sum(tokens)?;
        let (first, more) = self.testers(tokens, first)?;
        if more.is_empty() {
            return Ok(first);
        }
        let node = AstNode::Test(Boxed::new(self.alloc, first)?, more);
        let span = tokens.span_since(start);
        Ok(Ast { node, span })
    }

    // What stands behind the sign of a comparison.
    #[tactic(auto, unfolding(crate::specs::steps::Parsers::compared))]
    fn compared(&self, tokens: &mut Tokens<'_>, op: CompareOp) -> Result<CompareTerm, Stop>
        requires nests { Nests self.now.params.now self.now.room (F.pre self.now.nested)
            (F.post self.now.nested) }
        ensures { Reads (p.here p.compared self.now.params.now self.now.room op tokens.old)
            result tokens.new }
    {
        let tree = self.tests(tokens)?;
        Ok(Term { op, tree })
    }

    // What was read, and any number of comparisons.
    #[tactic(auto, unfolding(crate::specs::steps::Parsers::comparisons))]
    fn comparisons(
        &self,
        tokens: &mut Tokens<'_>,
        first: Ast,
    ) -> Result<(Ast, List<CompareTerm>), Stop>
        requires nests { Nests self.now.params.now self.now.room (F.pre self.now.nested)
            (F.post self.now.nested) }
        ensures { ReadsBeside first
            (p.here p.comparisons self.now.params.now self.now.room
            tokens.old) result tokens.new }
    {
        with_many(self.alloc, tokens, first, Comparison, |tokens, op| {
            self.compared(tokens, op)
        })
    }

    /// A comparison.
    #[tactic(auto, unfolding(crate::specs::steps::Parsers::compare))]
    pub(crate) fn compare(&self, tokens: &mut Tokens<'_>) -> Result<Ast, Stop>
        requires nests { Nests self.now.params.now self.now.room (F.pre self.now.nested)
            (F.post self.now.nested) }
        ensures { Reads (p.here p.compare self.now.params.now self.now.room
            tokens.old)
            result tokens.new }
    {
        let start = tokens.left();
        let first = self.tests(tokens)?;
        let (first, more) = self.comparisons(tokens, first)?;
        if more.is_empty() {
            return Ok(first);
        }
        let node = AstNode::Compare(Boxed::new(self.alloc, first)?, more);
        let span = tokens.span_since(start);
        Ok(Ast { node, span })
    }
}
