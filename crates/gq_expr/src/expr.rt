//! Expressions whose names are resolved: variables are numbers, functions are variants.
ghost use Rattle.std.specs.Prelude.{◌≡◌};
ghost use Rattle.gq_expr.specs.FaultNames.{fault_name};

use gq_base::{ArithOp, Boxed, CompareOp, List, Literal, Text, TextTest};

/// A logical operator of two operands.
#[derive(Clone, Copy, Debug, PartialEq, Eq)]
pub enum LogicOp {
    And,
    Or,
    Xor,
}

/// Why an expression has no value.
#[derive(Clone, Copy, Debug, PartialEq, Eq)]
pub enum Fault {
    /// An integer that does not fit 64 signed bits.
    Overflow,
    /// `/` or `%` with divisor 0.
    DivideByZero,
    /// An operand of a kind that the operator does not take.
    Kind,
}

impl Fault {
    /// Its name.
    pub fn name(self) -> &'static str
        ensures { result.now ≡ fault_name self }
    {
        match self {
            Fault::Overflow => "Overflow",
            Fault::DivideByZero => "DivideByZero",
            Fault::Kind => "Kind",
        }
    }
}

/// An operator with its right operand.
#[derive(Drop)]
pub struct Operand<O, E> {
    pub op: O,
    pub expr: E,
}

/// A test that stands after its operand.
#[derive(Drop)]
pub enum Tester<E> {
    /// `IS NULL`.
    IsNull,
    /// `IS NOT NULL`.
    IsNotNull,
    /// `IN [..]`.
    Member(List<Literal>),
    /// `STARTS WITH`, `ENDS WITH` and `CONTAINS`.
    Text(TextTest, E),
}

/// An expression. Node variables and relationship variables are counted from 0, each kind for itself. A chain of
/// operators is a first operand with the further ones, and is read as pairs nested to the left.
#[derive(Drop)]
pub enum Expr {
    Literal(Literal),
    /// A node variable.
    Node(u32),
    /// A relationship variable.
    Rel(u32),
    /// A property of a node variable.
    NodeProperty(u32, Text),
    /// A property of a relationship variable.
    RelProperty(u32, Text),
    /// `type(e)`.
    TypeName(Boxed<Expr>),
    /// `coalesce(e1, .., en)`.
    Coalesce(List<Expr>),
    /// The sign `-`.
    Negate(Boxed<Expr>),
    /// The sign `+`.
    Plus(Boxed<Expr>),
    Not(Boxed<Expr>),
    Or(List<Expr>),
    Xor(List<Expr>),
    And(List<Expr>),
    Compare(Boxed<Expr>, List<CompareOperand>),
    Test(Boxed<Expr>, List<ExprTester>),
    Arith(Boxed<Expr>, List<ArithOperand>),
}

/// A comparison with its right operand.
pub type CompareOperand = Operand<CompareOp, Expr>;

/// An operator on integers with its right operand.
pub type ArithOperand = Operand<ArithOp, Expr>;

/// A test with the operand that it may have.
pub type ExprTester = Tester<Expr>;
