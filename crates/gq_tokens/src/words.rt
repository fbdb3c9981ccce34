//! What single tokens stand for.

ghost use Rattle.std.specs.Prelude.{◌≡◌, IfOk, map};
ghost use Rattle.std.specs.Option.{option_copied};
ghost use Rattle.std.specs.Str.{str_eq_ignore_ascii_case};
ghost use Rattle.gq_tokens.specs.Words as spec;

use crate::opening::{TestWord, Tip};
use gq_base::{ArithOp, CompareOp, Literal, Memory, Text, TextTest};
use gq_lexer::{Sign, Token, TokenKind};

// The words that are no names unless they stand in backquotes.
const RESERVED: [&str; 28] = [
    "MATCH",
    "OPTIONAL",
    "WHERE",
    "RETURN",
    "DISTINCT",
    "ORDER",
    "BY",
    "ASC",
    "ASCENDING",
    "DESC",
    "DESCENDING",
    "SKIP",
    "LIMIT",
    "AS",
    "AND",
    "OR",
    "XOR",
    "NOT",
    "IN",
    "IS",
    "NULL",
    "TRUE",
    "FALSE",
    "STARTS",
    "ENDS",
    "WITH",
    "CONTAINS",
    "EXISTS",
];

/// Whether two signs are the same.
#[tactic(auto, unfolding(crate::specs::Words::same_sign))]
pub(crate) fn same_sign(a: Sign, b: Sign) -> bool
    ensures { result ≡ spec.same_sign a b }
{
    a == b
}

// Whether two words are the same but for the case of ASCII letters.
fn same_word(a: &str, b: &str) -> bool
    ensures { result ≡ str_eq_ignore_ascii_case a.now b.now }
{
    a.eq_ignore_ascii_case(b)
}

// Whether a word is one of these, in any ASCII case.
fn is_among(word: &str, words: &[&str]) -> bool
    ensures { result ≡ spec.is_among word.now (map (λ w. w.now) words.now) }
{
    for other in words {
        if same_word(word, other) {
            return true;
        }
    }
    false
}

/// Whether a word is reserved, in any ASCII case.
#[tactic(auto, unfolding(crate::specs::Words::is_reserved))]
pub(crate) fn is_reserved(word: &str) -> bool
    ensures { result ≡ spec.is_reserved word.now }
{
    is_among(word, &RESERVED)
}

/// Whether a token is this sign.
pub(crate) fn is_sign(sign: Sign, kind: &TokenKind) -> bool
    ensures { result ≡ spec.is_sign sign kind.now }
{
    match kind {
        TokenKind::Sign(other) => same_sign(*other, sign),
        _ => false,
    }
}

/// Whether a token is this word, in any ASCII case.
pub(crate) fn is_word(word: &str, kind: &TokenKind) -> bool
    ensures { result ≡ spec.is_word word.now kind.now }
{
    match kind {
        TokenKind::Word(text) => same_word(text.as_str(), word),
        _ => false,
    }
}

/// A comparison's sign.
pub(crate) fn comparison_of(kind: &TokenKind) -> Option<CompareOp>
    ensures { result ≡ spec.comparison_of kind.now }
{
    match kind {
        TokenKind::Sign(Sign::Equal) => Some(CompareOp::Equal),
        TokenKind::Sign(Sign::NotEqual) => Some(CompareOp::NotEqual),
        TokenKind::Sign(Sign::Less) => Some(CompareOp::Less),
        TokenKind::Sign(Sign::LessEqual) => Some(CompareOp::LessEqual),
        TokenKind::Sign(Sign::Greater) => Some(CompareOp::Greater),
        TokenKind::Sign(Sign::GreaterEqual) => Some(CompareOp::GreaterEqual),
        _ => None,
    }
}

/// `+` and `-`.
pub(crate) fn addition_of(kind: &TokenKind) -> Option<ArithOp>
    ensures { result ≡ spec.addition_of kind.now }
{
    match kind {
        TokenKind::Sign(Sign::Plus) => Some(ArithOp::Add),
        TokenKind::Sign(Sign::Minus) => Some(ArithOp::Subtract),
        _ => None,
    }
}

/// `*`, `/` and `%`.
pub(crate) fn multiplication_of(kind: &TokenKind) -> Option<ArithOp>
    ensures { result ≡ spec.multiplication_of kind.now }
{
    match kind {
        TokenKind::Sign(Sign::Star) => Some(ArithOp::Multiply),
        TokenKind::Sign(Sign::Slash) => Some(ArithOp::Divide),
        TokenKind::Sign(Sign::Percent) => Some(ArithOp::Remainder),
        _ => None,
    }
}

/// The first sign of a relationship.
pub(crate) fn tip_of(token: &Token) -> Option<Tip>
    ensures { result ≡ spec.tip token.now }
{
    let at = token.span.start;
    match token.kind {
        TokenKind::Sign(Sign::Less) => Some(Tip { left: true, at }),
        TokenKind::Sign(Sign::Minus) => Some(Tip { left: false, at }),
        _ => None,
    }
}

/// The first word of a test.
pub(crate) fn test_word_of(kind: &TokenKind) -> Option<TestWord>
    ensures { result ≡ spec.test_word_of kind.now }
{
    let TokenKind::Word(word) = kind else {
        return None;
    };
    let word = word.as_str();
    if same_word(word, "IS") {
        Some(TestWord::Is)
    } else if same_word(word, "IN") {
        Some(TestWord::In)
    } else if same_word(word, "STARTS") {
        Some(TestWord::Text(TextTest::Starts))
    } else if same_word(word, "ENDS") {
        Some(TestWord::Text(TextTest::Ends))
    } else if same_word(word, "CONTAINS") {
        Some(TestWord::Text(TextTest::Contains))
    } else {
        None
    }
}

/// Whether WITH stands behind the first word of a test of a text.
pub fn has_with(test: TextTest) -> bool
    ensures { result ≡ spec.has_with test }
{
    match test {
        TextTest::Starts => true,
        TextTest::Ends => true,
        TextTest::Contains => false,
    }
}

/// The word that gives a sort item its direction: whether it sorts from the greatest to the least.
pub(crate) fn direction_of(kind: &TokenKind) -> Option<bool>
    ensures { result ≡ spec.direction_of kind.now }
{
    let TokenKind::Word(word) = kind else {
        return None;
    };
    let word = word.as_str();
    if same_word(word, "ASC") || same_word(word, "ASCENDING") {
        Some(false)
    } else if same_word(word, "DESC") || same_word(word, "DESCENDING") {
        Some(true)
    } else {
        None
    }
}

/// A word, or a name in backquotes.
pub(crate) fn called_of(kind: &TokenKind) -> Option<&Text>
    ensures { option_copied result ≡ spec.called_of kind.now }
{
    match kind {
        TokenKind::Word(word) => Some(word),
        TokenKind::Quoted(name) => Some(name),
        _ => None,
    }
}

/// A word that is not reserved, or a name in backquotes.
pub(crate) fn name_of(kind: &TokenKind) -> Option<&Text>
    ensures { option_copied result ≡ spec.name_of kind.now }
{
    match kind {
        TokenKind::Word(word) if !is_reserved(word.as_str()) => Some(word),
        TokenKind::Quoted(name) => Some(name),
        _ => None,
    }
}

/// An integer as it stands.
pub(crate) fn number_of(kind: &TokenKind) -> Option<u64>
    ensures { result ≡ spec.number_of kind.now }
{
    match kind {
        TokenKind::Int(value) => Some(*value),
        _ => None,
    }
}

/// Whether a token is the integer whose negation is the least of 64 signed bits.
pub(crate) fn is_big(kind: &TokenKind) -> bool
    ensures { result ≡ spec.is_big kind.now }
{
    matches!(kind, TokenKind::Big)
}

// The value of TRUE, FALSE and NULL.
fn word_value(word: &str) -> Option<Literal>
    ensures { result ≡ spec.word_value word.now }
{
    if same_word(word, "TRUE") {
        Some(Literal::Flag(true))
    } else if same_word(word, "FALSE") {
        Some(Literal::Flag(false))
    } else if same_word(word, "NULL") {
        Some(Literal::Null)
    } else {
        None
    }
}

// An integer of 64 signed bits.
fn int_value(value: u64) -> Option<i64>
    ensures { result ≡ spec.int_value value }
{
    if value <= i64::MAX as u64 {
        Some(value as i64)
    } else {
        None
    }
}

/// A literal of one token.
pub(crate) fn plain_of(kind: &TokenKind) -> Result<Option<Literal>, Memory>
    ensures { IfOk result (λ r. r ≡ spec.plain_of kind.now) }
{
    match kind {
        TokenKind::Int(value) => Ok(int_value(*value).map(Literal::Int)),
        TokenKind::Str(text) => Ok(Some(Literal::Str(text.clone()?))),
        TokenKind::Word(word) => Ok(word_value(word.as_str())),
        _ => Ok(None),
    }
}

/// The integer behind a minus sign, negated.
pub(crate) fn negative_of(kind: &TokenKind) -> Option<Literal>
    ensures { result ≡ spec.negative_of kind.now }
{
    match kind {
        TokenKind::Int(value) => int_value(*value).map(|value| Literal::Int(-value)),
        TokenKind::Big => Some(Literal::Int(i64::MIN)),
        _ => None,
    }
}
