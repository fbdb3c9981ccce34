//! What stands inside a construct that nests.

/// Which production of expressions stands inside a construct.
#[derive(Clone, Copy, Debug, PartialEq, Eq)]
pub(crate) enum Production {
    /// An expression, as in parentheses.
    Expr,
    /// What NOT negates.
    Not,
    /// What a sign stands before.
    Sign,
}
