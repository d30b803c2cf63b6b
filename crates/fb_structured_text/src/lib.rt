//! Reading the expressions and statements of Structured Text (IEC 61131-3) in algorithms and guards.
#![tactic(auto)]

mod expression_reader;
mod labels;
mod laws;
mod operators;
mod references;
mod statement_reader;

pub use expression_reader::expression;
pub use laws::{one_expression, one_statement};
pub use statement_reader::statements;

/// Of `fb_grammar`, for the crates above.
pub mod grammar {
    pub use fb_grammar::{
        Kind, Reader, Stop, Tokens, is_next, key, name, name_of, one_of, several,
    };
}
