//! The trees of expressions.

use crate::span::Span;
use crate::statement::Path;
use gq_base::{ArithOp, Boxed, CompareOp, List, Literal, Text, TextTest};

/// An operator and what stands at its right.
#[derive(Drop)]
pub struct Term<O, A> {
    pub op: O,
    pub tree: A,
}

/// A test of what stands at its left.
#[derive(Drop)]
pub enum Tester<A> {
    IsNull,
    IsNotNull,
    /// `IN` with the members of the list.
    Member(List<Literal>),
    /// `STARTS WITH`, `ENDS WITH` or `CONTAINS`, and the part.
    Text(TextTest, A),
}

/// An expression whose parts are of the type `A`.
#[derive(Drop)]
pub enum AstNode<A> {
    Literal(Literal),
    Variable(Text),
    /// A variable and the name of its property.
    Property(Text, Text),
    /// A function's name and its arguments.
    Call(Text, List<A>),
    /// A path that has to be there; it has no trail.
    Exists(Path),
    /// What stands in parentheses.
    Paren(Boxed<A>),
    Negate(Boxed<A>),
    Plus(Boxed<A>),
    Not(Boxed<A>),
    /// At least two operands, from left to right; so are those of `Xor` and `And`.
    Or(List<A>),
    Xor(List<A>),
    And(List<A>),
    /// The leftmost operand, and at least one comparison with the operand at its right.
    Compare(Boxed<A>, List<Term<CompareOp, A>>),
    /// What is tested, and at least one test; they apply from left to right.
    Test(Boxed<A>, List<Tester<A>>),
    /// The leftmost operand, and at least one `Add` or `Subtract`; they apply from left to right.
    Sum(Boxed<A>, List<Term<ArithOp, A>>),
    /// The leftmost operand, and at least one `Multiply`, `Divide` or `Remainder`; they apply from left to right.
    Product(Boxed<A>, List<Term<ArithOp, A>>),
}

/// An expression and its place in the text, from the first byte of its first token to behind its last token.
#[derive(Drop)]
pub struct Ast {
    pub node: AstNode<Ast>,
    pub span: Span,
}

/// A comparison and the operand at its right.
pub type CompareTerm = Term<CompareOp, Ast>;

/// An operation and the operand at its right.
pub type ArithTerm = Term<ArithOp, Ast>;

/// A test of an expression.
pub type AstTester = Tester<Ast>;
