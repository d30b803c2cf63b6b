//! Expressions of Structured Text.

use crate::constant::Literal;
use crate::reference::Reference;
use fb_text::{NameUse, Place};

/// An operator before an operand.
#[derive(Clone, Copy, Debug, PartialEq, Eq)]
pub enum UnaryOperator {
    Plus,
    Minus,
    Not,
}

/// An operator between two operands. `&` is `And`.
#[derive(Clone, Copy, Debug, PartialEq, Eq)]
pub enum BinaryOperator {
    Or,
    Xor,
    And,
    Equal,
    NotEqual,
    Less,
    Greater,
    LessOrEqual,
    GreaterOrEqual,
    Add,
    Subtract,
    Multiply,
    Divide,
    Modulo,
    Power,
}

/// An operator and its place.
#[derive(Clone, Copy, Debug)]
pub struct UnaryUse {
    pub operator: UnaryOperator,
    pub span: Place,
}

/// An operator and its place.
#[derive(Clone, Copy, Debug)]
pub struct BinaryUse {
    pub operator: BinaryOperator,
    pub span: Place,
}

/// An expression.
pub enum Expr {
    Literal(Literal),
    /// A variable that is only a name. Most are.
    Name(NameUse),
    /// Any other variable, with its subscripts.
    Reference(Box<Reference>, Vec<Expr>),
    Unary(UnaryUse, Box<Expr>),
    /// An operator between two operands. Most rows have one.
    Pair(Box<(Expr, BinaryUse, Expr)>),
    /// An operand, and two or more operators of one strength that follow it, each with its operand.
    Row(Box<Expr>, Vec<(BinaryUse, Expr)>),
    /// In parentheses, which the span includes.
    Parentheses(Box<Expr>, Place),
}

impl Drop for Expr {
    fn drop(self) {
        match self {
            Self::Literal(_)
            | Self::Name(_)
            | Self::Reference(_, _)
            | Self::Unary(_, _)
            | Self::Pair(_)
            | Self::Row(_, _)
            | Self::Parentheses(_, _) => {}
        }
    }
}
