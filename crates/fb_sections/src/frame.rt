//! What sections have in common.

ghost use Rattle.fb_grammar.specs.{Gives.{Gives, GivesEach}, Reading.{read}, Lexemes.{name_use}, Upcoming.{are_tokens}};
ghost use Rattle.fb_sections.specs.Sections.{optional_name, read_section};
ghost use Rattle.std.specs.Prelude.{◌≡◌, ◌∷◌, [], map};

use fb_grammar::{Kind, NAMES, Reader, Stop, Tokens, is_next, key, name, several};
use fb_tree::text::NameUse;
use std::alloc::Global;

/// A token of this kind and a name, if the token is there.
#[tactic(auto, unfolding(crate::specs::Sections::optional_name))]
pub fn optional_name(
    alloc: Global,
    tokens: &mut Tokens<'_>,
    kind: Kind,
) -> Result<Option<NameUse>, Stop>
    requires { are_tokens (kind ∷ []) }
    ensures { Gives (λ name. name) result tokens.new
        (read (optional_name kind) tokens.old) }
{
    if !is_next(tokens, &[kind]) {
        return Ok(None);
    }
    key(tokens, kind)?;
    let found = name(alloc, tokens)?;
    Ok(Some(found))
}

/// A word, items that begin with names, and another word.
pub fn section<R: Reader>(
    start: Kind,
    reader: &R,
    end: Kind,
    alloc: Global,
    tokens: &mut Tokens<'_>,
) -> Result<Vec<R::Item>, Stop>
    requires begins { are_tokens (start ∷ []) }
    requires closes { are_tokens (end ∷ []) }
    ensures { GivesEach R.view result tokens.new (read_section start (R.reads reader.now) end tokens.old) }
{
    key(tokens, start)?;
    let items = several(reader, alloc, &NAMES, tokens)?;
    key(tokens, end)?;
    Ok(items)
}
