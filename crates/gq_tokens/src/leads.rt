//! What leads in an item of a repetition: a sign, a word, or one of some tokens that stand for something.

ghost use Rattle.std.specs.Prelude.{◌≡◌, Option, if◌then◌else◌};
ghost use Rattle.std.specs.Option.{is_some};
ghost use Rattle.gq_lexer.specs.declared.token.Token.{Token};
ghost use Rattle.gq_tokens.specs.Readers as r;
ghost use Rattle.gq_tokens.specs.Words as w;

use crate::opening::{TestWord, Tip};
use crate::tokens::Tokens;
use crate::words;
use gq_base::{ArithOp, CompareOp};
use gq_lexer::{Sign, Token};

/// What leads in an item of a repetition.
pub trait Lead: Copy {
    /// What a token that leads in an item stands for.
    type Found: Copy;

    // What each token stands for, if it leads in an item.
    ghost test: { Self → Token → Option Self.Found };

    /// What a token stands for, if it leads in an item.
    fn found(self, token: &Token) -> Option<Self::Found>
        ensures { result ≡ test self token.now };

    /// Takes the next token, if it leads in an item.
    fn take(self, tokens: &mut Tokens<'_>) -> Option<Self::Found>
        ensures taken { result ≡ r.head_by (test self) tokens.old }
        ensures left { tokens.new ≡ if is_some result then r.tail tokens.old else tokens.old }
    {
        let found = self.found(tokens.left().first()?)?;
        tokens.skip();
        Some(found)
    }
}

impl Lead for Sign {
    type Found = ();

    ghost test = { w.sign_is };

    fn found(self, token: &Token) -> Option<()> {
        words::is_sign(self, &token.kind).then_some(())
    }
}

/// A word, in any ASCII case.
#[derive(Clone, Copy)]
pub struct Word(pub &'static str);

impl Lead for Word {
    type Found = ();

    ghost test = { λ word. w.word_is word.0.now };

    fn found(self, token: &Token) -> Option<()> {
        words::is_word(self.0, &token.kind).then_some(())
    }
}

/// `*`, `/` and `%`.
#[derive(Clone, Copy)]
pub struct Multiplication;

impl Lead for Multiplication {
    type Found = ArithOp;

    ghost test = { λ _. w.multiplication };

    fn found(self, token: &Token) -> Option<ArithOp> {
        words::multiplication_of(&token.kind)
    }
}

/// `+` and `-`.
#[derive(Clone, Copy)]
pub struct Addition;

impl Lead for Addition {
    type Found = ArithOp;

    ghost test = { λ _. w.addition };

    fn found(self, token: &Token) -> Option<ArithOp> {
        words::addition_of(&token.kind)
    }
}

/// The first words of tests.
#[derive(Clone, Copy)]
pub struct Tests;

impl Lead for Tests {
    type Found = TestWord;

    ghost test = { λ _. w.test_word };

    fn found(self, token: &Token) -> Option<TestWord> {
        words::test_word_of(&token.kind)
    }
}

/// The signs of comparisons.
#[derive(Clone, Copy)]
pub struct Comparison;

impl Lead for Comparison {
    type Found = CompareOp;

    ghost test = { λ _. w.comparison };

    fn found(self, token: &Token) -> Option<CompareOp> {
        words::comparison_of(&token.kind)
    }
}

/// The first signs of relationships.
#[derive(Clone, Copy)]
pub struct Tips;

impl Lead for Tips {
    type Found = Tip;

    ghost test = { λ _. w.tip };

    fn found(self, token: &Token) -> Option<Tip> {
        words::tip_of(token)
    }
}
