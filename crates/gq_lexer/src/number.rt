//! Digits and the numbers that they spell.

ghost use Rattle.std.specs.Prelude.{◌≡◌, ◌+◌, ◌-◌, ◌^◌, ◌<◌, ◌≤◌, length, min, take, IfSome};
ghost use Rattle.gq_lexer.specs.Characters.{begins_digit};
ghost use Rattle.gq_lexer.specs.Lexemes.{number_at, number_kind, numeral, runs_on};
ghost use Rattle.gq_lexer.specs.Numbers.{digits_at, value_in};

use crate::lexeme::Lexeme;
use crate::token::TokenKind;
use gq_base::is_word_part;

// One more than the greatest integer of 64 signed bits.
const BIG: u64 = 1 << 63;

/// The digits that a text begins with: how many they are, and what they spell, or `u64::MAX` where that is less.
#[derive(Clone, Copy)]
pub(crate) struct Digits {
    pub(crate) size: usize,
    pub(crate) value: u64,
}

/// Reads the digits of a base that a text begins with.
pub(crate) fn read_digits(base: u32, rest: &[char]) -> Digits
    requires least { 2 ≤ base }
    requires most { base ≤ 36 }
    ensures size { result.size ≡ digits_at base rest.now }
    ensures within { result.size ≤ length rest.now }
    ensures value { result.value ≡ min (value_in base (take result.size rest.now)) (2 ^ 64 - 1) }
{
    let mut value: u64 = 0;
    for (size, c) in rest.iter().enumerate() {
        let Some(digit) = c.to_digit(base) else {
            return Digits { size, value };
        };
        value = value
            .saturating_mul(u64::from(base))
            .saturating_add(u64::from(digit));
    }
    Digits {
        size: rest.len(),
        value,
    }
}

fn begins_digit(rest: &[char]) -> bool
    ensures { result ≡ begins_digit rest.now }
{
    match rest {
        [] => false,
        [first, ..] => first.is_ascii_digit(),
    }
}

// Whether this may not stand right behind a number: a word character, a digit, or a point and a digit.
fn runs_on(behind: &[char]) -> bool
    ensures { result ≡ runs_on behind.now }
{
    match behind {
        [] => false,
        [first, behind @ ..] => is_word_part(*first) || *first == '.' && begins_digit(behind),
    }
}

// The token of a number, or of `u64::MAX` where that is less.
fn number_kind(value: u64) -> Option<TokenKind>
    ensures { result ≡ number_kind value }
{
    if value < BIG {
        Some(TokenKind::Int(value))
    } else if value == BIG {
        Some(TokenKind::Big)
    } else {
        None
    }
}

// The digits of a base, behind so many characters of the number.
fn numeral(base: u32, front: usize, digits: &[char]) -> Option<Lexeme>
    requires least { 2 ≤ base }
    requires most { base ≤ 36 }
    requires few { front ≤ 2 }
    ensures value { result ≡ numeral base front digits.now }
    ensures size { IfSome result (λ l. (0 < l.size) × (l.size ≤ length digits.now + front)) }
{
    let number = read_digits(base, digits);
    if number.size == 0 || runs_on(&digits[number.size..]) {
        return None;
    }
    match number_kind(number.value) {
        Some(kind) => Some(Lexeme {
            size: front + number.size,
            kind: Some(kind),
        }),
        None => None,
    }
}

/// Reads a number.
pub(crate) fn read_number(rest: &[char]) -> Option<Lexeme>
    ensures value { result ≡ number_at rest.now }
    ensures size { IfSome result (λ l. (0 < l.size) × (l.size ≤ length rest.now)) }
{
    match rest {
        ['0', 'x', digits @ ..] => numeral(16, 2, digits),
        ['0', next, ..] if next.is_ascii_digit() => None,
        _ => numeral(10, 0, rest),
    }
}
