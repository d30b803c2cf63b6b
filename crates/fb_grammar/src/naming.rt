//! Single tokens, names and lists of names.

ghost use Rattle.fb_grammar.specs.{Form.{as_value, one}, Gives.{Gives}, Reading.{is_next, read}, Kind.{is_among, name_kinds}, Lexemes.{name_use}};
ghost use Rattle.fb_grammar.specs.{Upcoming.{are_tokens, front}, Words.{key, name, names}};
ghost use Rattle.fb_tree.specs.Text.declared.name.NameUse.{NameUse};
ghost use Rattle.std.specs.Prelude.{◌≡◌, ◌∷◌, [], All, IfOk, true};

use crate::kind::Kind;
use crate::repetition::{Reader, listed};
use crate::stop::Stop;
use crate::upcoming::Tokens;
use fb_tree::text::{CompactName, NameUse, Place};
use std::alloc::Global;

/// A token that was taken.
#[derive(Clone, Copy, Debug)]
pub struct Taken {
    pub kind: Kind,
    pub span: Place,
}

/// Whether the next token is of one of these kinds.
pub fn is_next(tokens: &Tokens<'_>, kinds: &[Kind]) -> bool
    ensures { result ≡ is_next kinds.now tokens.now }
{
    tokens.kind().is_among(kinds)
}

/// A token of one of these kinds.
pub fn one_of(tokens: &mut Tokens<'_>, kinds: &[Kind]) -> Result<Taken, Stop>
    requires { are_tokens kinds.now }
    ensures reads { Gives (λ taken. front tokens.old) result tokens.new (read (one kinds.now) tokens.old) }
    ensures kind { IfOk result (λ taken. taken.kind ≡ (front tokens.old).kind) }
    ensures place { IfOk result (λ taken. taken.span ≡ (front tokens.old).span) }
{
    let kind = tokens.kind();
    if !kind.is_among(kinds) {
        return Err(Stop::Broken);
    }
    let span = tokens.place();
    tokens.take();
    Ok(Taken { kind, span })
}

/// A token of this kind.
pub fn key(tokens: &mut Tokens<'_>, kind: Kind) -> Result<Place, Stop>
    requires { are_tokens (kind ∷ []) }
    ensures reads { Gives (λ place. front tokens.old) result tokens.new (read (key kind) tokens.old) }
    ensures place { IfOk result (λ place. place ≡ (front tokens.old).span) }
{
    if tokens.kind().code() != kind.code() {
        return Err(Stop::Broken);
    }
    let span = tokens.place();
    tokens.take();
    Ok(span)
}

/// The kinds of names.
pub const NAMES: [Kind; 4] = [Kind::Name, Kind::NameIn, Kind::NameOn, Kind::NameSt];

/// A token of one of these kinds of names.
pub fn name_of(alloc: Global, tokens: &mut Tokens<'_>, kinds: &[Kind]) -> Result<NameUse, Stop>
    requires { All (λ kind. is_among name_kinds kind ≡ true) kinds.now }
    ensures { Gives (λ name. name) result tokens.new (read (as_value name_use (one kinds.now)) tokens.old) }
{
    if !is_next(tokens, kinds) {
        return Err(Stop::Broken);
    }
    let name = CompactName::of_word(alloc, tokens.spelling())?;
    let span = tokens.place();
    tokens.take();
    Ok(NameUse { name, span })
}

/// A name.
#[tactic(auto, unfolding(crate::specs::Words::name))]
pub fn name(alloc: Global, tokens: &mut Tokens<'_>) -> Result<NameUse, Stop>
    ensures { Gives (λ name. name) result tokens.new (read name tokens.old) }
{
    name_of(alloc, tokens, &NAMES)
}

/// Reads names.
#[derive(Drop)]
pub struct NameReader;

impl Reader for NameReader {
    type Item = NameUse;

    ghost Tree = { NameUse };

    ghost view = { λ name. name };

    ghost reads = { λ _. read name };

    fn read(&self, alloc: Global, tokens: &mut Tokens<'_>) -> Result<NameUse, Stop> {
        name(alloc, tokens)
    }
}

/// One name or more, with commas between them.
#[tactic(auto, unfolding(crate::specs::Words::names), using(crate::proofs::Repeating::as_they_are))]
pub fn names(alloc: Global, tokens: &mut Tokens<'_>) -> Result<Vec<NameUse>, Stop>
    ensures { Gives (λ x. x.items) result tokens.new (read names tokens.old) }
{
    listed(&NameReader, alloc, tokens)
}
