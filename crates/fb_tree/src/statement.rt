//! Statements of Structured Text.

use crate::expression::Expr;
use crate::reference::Reference;
use fb_text::{NameUse, Place};

/// How a `FOR` counts: its variable, from where, to where, and by what step.
pub struct Counting {
    pub variable: NameUse,
    pub from: Expr,
    pub to: Expr,
    pub by: Option<Expr>,
}

impl Drop for Counting {
    fn drop(self) {
        let Self {
            variable: _,
            from: _,
            to: _,
            by: _,
        } = self;
    }
}

/// A statement. The labels of `CASE` are not kept.
pub enum Stmt {
    Empty,
    /// A variable that is only a name, the place of `:=`, and the value.
    Set(NameUse, Place, Expr),
    /// Any other variable with its subscripts, the place of `:=`, and the value.
    Assign(Box<Reference>, Vec<Expr>, Place, Expr),
    Exit,
    Return,
    /// Each condition with what is done, and what is done after `ELSE`.
    If(Vec<(Expr, Vec<Stmt>)>, Vec<Stmt>),
    /// The selector, the statements of all cases, and those after `ELSE`.
    Case(Expr, Vec<Stmt>, Vec<Stmt>),
    /// How it counts, and the body.
    For(Box<Counting>, Vec<Stmt>),
    While(Expr, Vec<Stmt>),
    Repeat(Vec<Stmt>, Expr),
}

impl Drop for Stmt {
    fn drop(self) {
        match self {
            Self::Empty
            | Self::Set(_, _, _)
            | Self::Assign(_, _, _, _)
            | Self::Exit
            | Self::Return
            | Self::If(_, _)
            | Self::Case(_, _, _)
            | Self::For(_, _)
            | Self::While(_, _)
            | Self::Repeat(_, _) => {}
        }
    }
}
