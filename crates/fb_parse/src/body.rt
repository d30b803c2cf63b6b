//! The body of a text.

ghost use Rattle.fb_structured_text.specs.{Forms.Form.{Spells}, Forms.declared.lexeme.Lexeme.{Lexeme}};
ghost use Rattle.fb_parse.specs.{Body.{BodyTree, IsBody, body_of}, Grammar.{unit}};
ghost use Rattle.fb_tree.specs.Tree.{DeclTree};
ghost use Rattle.std.specs.Prelude.{◌≡◌, ◌<◌, ℕ, IfOk, List, length};

use crate::units::unit;
use fb_structured_text::grammar::{Kind, Stop, Tokens};
use fb_tree::text::Span;
use fb_tree::{Decl, Mentions, mentions_of};
use std::alloc::{AllocError, Global};

/// The declaration that a text spells, or the place from which it can no longer spell one.
#[derive(Drop)]
pub enum Body {
    Tree(Decl),
    Broken(Span),
}

impl Body {
    ghost use Rattle.fb_structured_text.specs.Forms.Reading.{read};
    ghost use Rattle.fb_parse.specs.Body.{body_tree, broken_at, mentions_in_body, whole_if_over};
    ghost use Rattle.fb_tree.specs.{Mentions.{mentioned}, Tree.{decl_tree}};

    /// The body of a text of less than 4 GiB.
    pub fn of_text(alloc: Global, text: &str) -> Result<Body, AllocError>
        requires { length text.now < 4294967296 }
        ensures { IfOk result (λ body. body_tree body ≡ body_of text.now) }
    {
        let mut tokens = Tokens::of(text);
        match unit(alloc, &mut tokens) {
            Ok(decl) => Ok(Self::whole_or_broken(decl, tokens)),
            Err(Stop::Broken) => Ok(Self::broken(tokens)),
            Err(Stop::Memory) => Err(AllocError),
        }
    }

    /// A comment that is never closed, or else the next token, or the end.
    fn broken(tokens: Tokens<'_>) -> Body
        ensures { body_tree result ≡ broken_at tokens.entry }
    {
        let place = tokens.place();
        match tokens.unclosed() {
            Some(comment) => Body::Broken(comment.span()),
            None => Body::Broken(place.span()),
        }
    }

    /// What the declaration mentions; nothing if the text is broken.
    pub(crate) fn mentions(&self, alloc: Global) -> Result<Mentions, AllocError>
        ensures { IfOk result (λ m. mentioned m ≡ mentions_in_body (body_tree self.now)) }
    {
        match self {
            Body::Tree(decl) => mentions_of(alloc, decl),
            Body::Broken(_) => Ok(Mentions {
                parts: Vec::new(alloc),
                of_values: Vec::new(alloc),
                is_structure: false,
            }),
        }
    }

    /// The declaration, unless tokens or a comment that is never closed are left after it.
    fn whole_or_broken(decl: Decl, tokens: Tokens<'_>) -> Body
        ensures { body_tree result ≡ whole_if_over (decl_tree decl) tokens.entry }
    {
        match tokens.kind() {
            Kind::End => Body::Tree(decl),
            _ => Self::broken(tokens),
        }
    }
}

/// Tokens spell one declaration at most.
pub fn one_tree()
    ensures { (lexemes : List Lexeme) (a b : DeclTree)
        → Spells unit lexemes a → Spells unit lexemes b → a ≡ b }
{}

/// Each text has one body, that which is computed.
pub fn one_body()
    ensures computed { (text : List ℕ) → IsBody text (body_of text) }
    ensures one { (text : List ℕ) (body : BodyTree) → IsBody text body → body ≡ body_of text }
{}
