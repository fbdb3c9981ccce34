//! Kleene's three-valued logic; `None` stands for null.
ghost use Rattle.std.specs.Prelude.{◌≡◌};
ghost use Rattle.gq_base.specs.Truth as tables;

/// `AND`: false where one side is false, else null where one side is null.
pub fn and3(a: Option<bool>, b: Option<bool>) -> Option<bool>
    ensures { result ≡ tables.and3 a b }
{
    match (a, b) {
        (Some(false), _) | (_, Some(false)) => Some(false),
        (Some(true), Some(true)) => Some(true),
        _ => None,
    }
}

/// `OR`: true where one side is true, else null where one side is null.
pub fn or3(a: Option<bool>, b: Option<bool>) -> Option<bool>
    ensures { result ≡ tables.or3 a b }
{
    match (a, b) {
        (Some(true), _) | (_, Some(true)) => Some(true),
        (Some(false), Some(false)) => Some(false),
        _ => None,
    }
}

/// `XOR`: null where one side is null, else whether the sides differ.
pub fn xor3(a: Option<bool>, b: Option<bool>) -> Option<bool>
    ensures { result ≡ tables.xor3 a b }
{
    match (a, b) {
        (Some(x), Some(y)) => Some(x != y),
        _ => None,
    }
}

/// `NOT`: null of null.
pub fn not3(a: Option<bool>) -> Option<bool>
    ensures { result ≡ tables.not3 a }
{
    match a {
        None => None,
        Some(x) => Some(!x),
    }
}
