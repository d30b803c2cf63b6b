//! How types are spelled.
ghost use Rattle.std.specs.{Prelude.{◌≡◌, [], ◌∷◌, ◌++◌, All, IfOk, OnOk}, List.{flat_map}, Str.{str_to_ascii_uppercase}, BTreeMap.{get}};
ghost use Rattle.fb_tree.specs.Text.Tokens.{LiesIn};
ghost use Rattle.fb_netcheck.specs.{Known.{AreSpellings, part_cmp}, Spellings.{same_type, same_words, word, words, words_at}};

use crate::repeats::is_same_name;
use fb_iface::library::{View, part_of, text_by_name};
use fb_tree::text::{Name, Span, Token, TokenFault, tokens};
use fb_tree::{TypeForm, TypeUse};
use std::alloc::{AllocError, Global};
use std::collections::BTreeMap;

/// The spellings of parts of texts: of a unit, from a start to an end.
pub type Spellings = BTreeMap<(Name, (usize, usize)), Vec<u8>>;

/// Whether two types are spelled alike, each in the text of a unit: plain types by their names, others token by token. What is spelled
/// out is kept, so that a long type with many connections is read once.
pub fn is_same_type<V: View>(
    alloc: Global,
    view: &V,
    unit: &Name,
    used: &TypeUse,
    other_unit: &Name,
    other: &TypeUse,
    known: &mut Spellings,
) -> Result<bool, AllocError>
    requires { AreSpellings (V.sources view.now) (get part_cmp known.old) }
    ensures kept { OnOk result (AreSpellings (V.sources view.now) (get part_cmp known.new)) }
    ensures same { IfOk result
        (λ same. same ≡ same_type (V.sources view.now) unit.now used.now other_unit.now other.now) }
{
    match (used.form, other.form) {
        (TypeForm::Plain, TypeForm::Plain) => Ok(is_same_name(&used.name, &other.name)),
        (TypeForm::Sized, TypeForm::Sized) | (TypeForm::Array, TypeForm::Array) => {
            let span = used.span.span();
            let other_span = other.span.span();
            spell(alloc, view, unit, span, known)?;
            spell(alloc, view, other_unit, other_span, known)?;
            is_spelled_alike(alloc, view, unit, span, other_unit, other_span, known)
        }
        _ => Ok(false),
    }
}

/// Keeps the spelling of a part of a unit's text.
fn spell<V: View>(
    alloc: Global,
    view: &V,
    unit: &Name,
    span: Span,
    known: &mut Spellings,
) -> Result<(), AllocError>
    requires { AreSpellings (V.sources view.now) (get part_cmp known.old) }
    ensures { OnOk result (AreSpellings (V.sources view.now) (get part_cmp known.new)) }
{
    let key = key_of(unit, span);
    if !known.contains_key(&key) {
        let spelling = words_of_unit(alloc, view, unit, span)?;
        known.insert(key, spelling)?;
    }
    Ok(())
}

fn key_of(unit: &Name, span: Span) -> (Name, (usize, usize))
    ensures { result ≡ (unit.now, (span.start, span.end)) }
{
    (*unit, (span.start, span.end))
}

/// The tokens of a part of a unit's text in upper case, each with a blank after it.
fn words_of_unit<V: View>(
    alloc: Global,
    view: &V,
    unit: &Name,
    span: Span,
) -> Result<Vec<u8>, AllocError>
    ensures { IfOk result
        (λ spelling. spelling.items ≡ words_at (V.sources view.now) unit.now span) }
{
    words_in(alloc, part_of(text_by_name(view, unit), span))
}

/// Whether two parts have the same tokens, by what is kept of them or else by their texts.
fn is_spelled_alike<V: View>(
    alloc: Global,
    view: &V,
    unit: &Name,
    span: Span,
    other_unit: &Name,
    other_span: Span,
    known: &Spellings,
) -> Result<bool, AllocError>
    requires { AreSpellings (V.sources view.now) (get part_cmp known.now) }
    ensures { IfOk result
        (λ same. same ≡ same_words (V.sources view.now) unit.now span other_unit.now other_span) }
{
    let kept = known.get(&key_of(unit, span));
    match (kept, known.get(&key_of(other_unit, other_span))) {
        (Some(spelling), Some(other)) => Ok(spelling.as_slice() == other.as_slice()),
        _ => {
            let spelling = words_of_unit(alloc, view, unit, span)?;
            let other = words_of_unit(alloc, view, other_unit, other_span)?;
            Ok(spelling.as_slice() == other.as_slice())
        }
    }
}

/// The tokens of a text in upper case, each with a blank after it.
fn words_in(alloc: Global, text: &str) -> Result<Vec<u8>, AllocError>
    ensures { IfOk result (λ spelling. spelling.items ≡ words text.now) }
{
    match tokens(alloc, text) {
        Ok(tokens) => spelled(alloc, text, tokens.as_slice()),
        Err(TokenFault::BadToken(_)) => Ok(Vec::new(alloc)),
        Err(TokenFault::Memory) => Err(AllocError),
    }
}

fn spelled(alloc: Global, text: &str, tokens: &[Token]) -> Result<Vec<u8>, AllocError>
    requires { All (λ t. LiesIn text.now t.span) tokens.now }
    ensures { IfOk result (λ spelling. spelling.items ≡ flat_map (word text.now) tokens.now) }
{
    let mut spelling = Vec::new(alloc);
    for token in tokens {
        push_word(token.text(text), &mut spelling)?;
    }
    Ok(spelling)
}

/// Adds a token in upper case, with a blank after it.
fn push_word(token: &str, spelling: &mut Vec<u8>) -> Result<(), AllocError>
    ensures { OnOk result
        (spelling.new.items ≡ spelling.old.items ++ (str_to_ascii_uppercase token.now ++ 32 ∷ [])) }
{
    for b in token.as_bytes() {
        spelling.push(b.to_ascii_uppercase())?;
    }
    spelling.push(b' ')?;
    Ok(())
}
