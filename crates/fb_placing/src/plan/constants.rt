//! Constants as they are written.
ghost use Rattle.std.specs.{Prelude.{◌≡◌, All, IfOk, string_bytes}, List.{flat_map}};
ghost use Rattle.fb_tree.specs.{Text.Tokens.{LiesIn}, Tree.{constant_tree}};
ghost use Rattle.fb_library.specs.Parts.{part};
ghost use Rattle.fb_placing.specs.ConstantTexts.{token_text, without_gaps, written};

use fb_library::part_of;
use fb_tree::Constant;
use fb_tree::text::{Token, TokenFault, tokens};
use std::alloc::{AllocError, Global};

fn joined(alloc: Global, text: &str, tokens: &[Token]) -> Result<String, AllocError>
    requires { All (λ t. LiesIn text.now t.span) tokens.now }
    ensures { IfOk result (λ told. string_bytes told ≡ flat_map (token_text text.now) tokens.now) }
{
    let mut told = String::with_capacity(alloc, text.len())?;
    for token in tokens {
        told.push_str(token.text(text))?;
    }
    Ok(told)
}

/// The tokens of a text as they are written, without blanks and comments between.
fn without_gaps(alloc: Global, text: &str) -> Result<String, AllocError>
    ensures { IfOk result (λ told. string_bytes told ≡ without_gaps text.now) }
{
    match tokens(alloc, text) {
        Ok(tokens) => joined(alloc, text, tokens.as_slice()),
        Err(TokenFault::BadToken(_)) => Ok(String::new(alloc)),
        Err(TokenFault::Memory) => Err(AllocError),
    }
}

/// A constant as it is written in the text, without blanks and comments between its tokens.
pub(crate) fn written(alloc: Global, text: &str, constant: &Constant) -> Result<String, AllocError>
    ensures { IfOk result
        (λ told. string_bytes told ≡ written text.now (constant_tree constant.now)) }
{
    without_gaps(alloc, part_of(text, constant.span()))
}
