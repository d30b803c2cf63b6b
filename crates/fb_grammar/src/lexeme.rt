//! Tokens with what the grammar asks of them.
ghost use Rattle.std.specs.{Prelude.{◌≡◌, ◌<◌, ◌≤◌, ◌↔◌, ℕ, true, not, ◌==◌, List, length, map, All, IfOk, None}, List.{prefix_len}};
ghost use Rattle.fb_tree.specs.{Text.Bytes.{hash}, Text.Tokens.{GivesReading, LiesIn, SpansRise}, Text.declared.token.TokenKind.{TokenKind}};
ghost use Rattle.fb_tree.specs.Text.declared.token.TokenKind.TheVariants.{Word};
ghost use Rattle.fb_grammar.specs.{Kind.{is_among, name_kinds}, ReservedWords.{keyword}};
ghost use Rattle.fb_grammar.specs.Lexemes.{kind_of, lexeme_of, lexemes_of, name_kind, number_kind, symbol_kind, type_name, typed_kind, word_kind};

use crate::keywords::{keyword, symbol};
use crate::kind::Kind;
use fb_tree::text::{
    CompactName, NameUse, Place, Token, TokenFault, TokenKind, TypeClass, same_word, tokens,
    type_class,
};
use std::alloc::{AllocError, Global};

/// A token: its place, its kind, and the name that it spells, `_` if it spells none.
#[derive(Debug, Drop)]
pub struct Lexeme {
    pub span: Place,
    pub kind: Kind,
    pub name: CompactName,
}

impl Lexeme {
    ghost use Rattle.fb_grammar.specs.Lexemes.{name_use};

    /// The name and its place, of a token that spells one.
    pub fn name_use(&self, alloc: Global) -> Result<NameUse, AllocError>
        ensures { IfOk result (λ used. used ≡ name_use self.now) }
    {
        Ok(NameUse {
            name: self.name.clone()?,
            span: self.span,
        })
    }
}

#[tactic(auto, unfolding(crate::specs::Lexemes::name_kind))]
fn name_kind(word: &[u8]) -> Kind
    ensures { result ≡ name_kind word.now }
{
    if word.len() > 64 {
        Kind::Other
    } else if same_word(word, b"IN") {
        Kind::NameIn
    } else if same_word(word, b"ON") {
        Kind::NameOn
    } else if same_word(word, b"ST") {
        Kind::NameSt
    } else {
        Kind::Name
    }
}

#[tactic(auto, unfolding(crate::specs::Lexemes::word_kind))]
pub(crate) fn word_kind(word: &[u8]) -> Kind
    ensures { result ≡ word_kind word.now }
{
    match keyword(word) {
        Some(kind) => kind,
        None => name_kind(word),
    }
}

#[tactic(auto, unfolding(crate::specs::Lexemes::number_kind))]
fn number_kind(number: &[u8]) -> Kind
    ensures { result ≡ number_kind number.now }
{
    if number == b"0".as_slice() {
        Kind::Zero
    } else if number == b"1".as_slice() {
        Kind::One
    } else if number.contains(&b'.') {
        Kind::RealNumber
    } else {
        Kind::Number
    }
}

/// How many bytes are before the first `#`.
fn type_len(literal: &[u8]) -> usize
    ensures value { result ≡ prefix_len (λ b. not (b == hash)) literal.now }
    ensures within { result ≤ length literal.now }
{
    literal.iter().take_while(|b| **b != b'#').count()
}

/// The bytes before the first `#`.
fn type_name(literal: &[u8]) -> &[u8]
    ensures { result.now ≡ type_name literal.now }
{
    &literal[..type_len(literal)]
}

#[tactic(auto, unfolding(crate::specs::Lexemes::typed_kind))]
fn typed_kind(literal: &[u8]) -> Kind
    ensures { result ≡ typed_kind literal.now }
{
    match type_class(type_name(literal)) {
        TypeClass::Truth => Kind::TypedTruth,
        TypeClass::Integer => Kind::TypedInteger,
        TypeClass::Bits => Kind::TypedBits,
        TypeClass::Free => Kind::TypedFree,
        TypeClass::Other => Kind::TypedOther,
    }
}

#[tactic(auto, unfolding(crate::specs::Lexemes::symbol_kind))]
fn symbol_kind(bytes: &[u8]) -> Kind
    ensures { result ≡ symbol_kind bytes.now }
{
    match symbol(bytes) {
        Some(kind) => kind,
        None => Kind::Other,
    }
}

#[tactic(auto, unfolding(crate::specs::Lexemes::kind_of))]
pub(crate) fn kind_of(kind: TokenKind, bytes: &[u8]) -> Kind
    ensures { result ≡ kind_of kind bytes.now }
{
    match kind {
        TokenKind::Word => word_kind(bytes),
        TokenKind::Number => number_kind(bytes),
        TokenKind::Typed => typed_kind(bytes),
        TokenKind::String => Kind::Text,
        TokenKind::Symbol => symbol_kind(bytes),
        TokenKind::Other => Kind::Other,
    }
}

/// A token of a text, as the grammar sees it.
#[tactic(auto, unfolding(crate::specs::Lexemes::lexeme_of))]
fn lexeme_of(alloc: Global, text: &str, token: &Token) -> Result<Lexeme, AllocError>
    requires within { LiesIn text.now token.now.span }
    requires short { length text.now < 4294967296 }
    ensures { IfOk result (λ lexeme. lexeme ≡ lexeme_of text.now token.now) }
{
    let bytes = token.text(text);
    Ok(Lexeme {
        span: Place::of(token.span),
        kind: kind_of(token.kind, bytes.as_bytes()),
        name: match CompactName::read(alloc, bytes)? {
            Ok(name) => name,
            Err(_) => CompactName::underscore(),
        },
    })
}

/// The tokens of a text of less than 4 GiB, as the grammar sees them.
#[tactic(auto, unfolding(crate::specs::Lexemes::lexemes_of))]
pub fn lexemes(alloc: Global, text: &str) -> Result<Vec<Lexeme>, TokenFault>
    requires { length text.now < 4294967296 }
    ensures exact { GivesReading result (lexemes_of text.now) }
    ensures within { IfOk result (λ lexemes. All (λ l. LiesIn text.now l.span) lexemes.items) }
    ensures rise { IfOk result
        (λ lexemes. SpansRise 0 (length text.now) (map (λ l. l.span) lexemes.items)) }
{
    let tokens = tokens(alloc, text)?;
    let mut lexemes = Vec::with_capacity(alloc, tokens.len())?;
    for token in &tokens {
        lexemes.push(lexeme_of(alloc, text, token)?)?;
    }
    Ok(lexemes)
}

/// A token is a name if it is a word of at most 64 bytes that is not reserved.
pub fn names_are_words()
    ensures { (token : TokenKind) (bytes : List ℕ)
        → (is_among name_kinds (kind_of token bytes) ≡ true)
        ↔ ((token ≡ Word) × (length bytes ≤ 64) × (keyword bytes ≡ None)) }
{}
