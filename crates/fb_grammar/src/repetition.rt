//! Values that come one after the other.

ghost use Rattle.fb_grammar.specs.{Gives.{Gives, GivesEach}, Reading.{Outcome, read_each}, Repetition.{read_behind, read_separated, with_prefix}};
ghost use Rattle.fb_grammar.specs.{Upcoming.{are_tokens}, declared.kind.Kind.TheVariants.{Comma}, declared.lexeme.Lexeme.{Lexeme}};
ghost use Rattle.std.specs.Prelude.{◌≡◌, ◌<◌, ◌∷◌, [], IfOk, List, length, map};

use crate::kind::Kind;
use crate::naming::{is_next, key};
use crate::stop::Stop;
use crate::upcoming::Tokens;
use std::alloc::Global;

/// What reads a value of a form, so that the form can be read again and again.
pub trait Reader {
    type Item: Drop;

    // what a value is in the grammar
    ghost Tree: { Type 0 };

    ghost view: { Self.Item → Tree };

    // what reading by the form gives
    ghost reads: { Self → List Lexeme → Outcome Tree };

    /// Reads one value, which takes a token at least.
    fn read(&self, alloc: Global, tokens: &mut Tokens<'_>) -> Result<Self::Item, Stop>
        ensures reads { Gives view result tokens.new (reads self.now tokens.old) }
        ensures takes { IfOk result (λ _. length tokens.new < length tokens.old) };
}

/// A token of a kind, and a value after it.
#[derive(Drop)]
struct Behind<'r, R> {
    kind: Kind,
    reader: &'r R,
    ghost is_token: { are_tokens (kind ∷ []) },
}

impl<R: Reader> Reader for Behind<'_, R> {
    type Item = R::Item;

    ghost Tree = { R.Tree };

    ghost view = { R.view };

    ghost reads = { λ behind. read_behind behind.kind (R.reads behind.reader.now) };

    fn read(&self, alloc: Global, tokens: &mut Tokens<'_>) -> Result<R::Item, Stop> {
        key(tokens, self.kind)?;
        self.reader.read(alloc, tokens)
    }
}

/// Appends values as long as the next token is of one of these kinds. Each takes a token, so there are no more than tokens.
fn append_each<R: Reader>(
    reader: &R,
    alloc: Global,
    kinds: &[Kind],
    mut items: Vec<R::Item>,
    tokens: &mut Tokens<'_>,
) -> Result<Vec<R::Item>, Stop>
    ensures { GivesEach R.view result tokens.new
        (with_prefix (map R.view items.items) (read_each (R.reads reader.now) kinds.now (length tokens.old) tokens.old)) }
{
    while is_next(tokens, kinds) {
        let item = reader.read(alloc, tokens)?;
        items.push(item)?;
    }
    Ok(items)
}

/// Values as long as the next token is of one of these kinds, which begin a value.
#[tactic(auto, using(crate::proofs::Repeating::none_in_prefix))]
pub fn several<R: Reader>(
    reader: &R,
    alloc: Global,
    kinds: &[Kind],
    tokens: &mut Tokens<'_>,
) -> Result<Vec<R::Item>, Stop>
    ensures { GivesEach R.view result tokens.new
        (read_each (R.reads reader.now) kinds.now (length tokens.old) tokens.old) }
{
    append_each(reader, alloc, kinds, Vec::new(alloc), tokens)
}

/// One value or more, with a token of this kind between them.
pub fn separated<R: Reader>(
    reader: &R,
    kind: Kind,
    alloc: Global,
    tokens: &mut Tokens<'_>,
) -> Result<Vec<R::Item>, Stop>
    requires { are_tokens (kind ∷ []) }
    ensures { GivesEach R.view result tokens.new (read_separated kind (R.reads reader.now) tokens.old) }
{
    let first = reader.read(alloc, tokens)?;
    // Most lists have one item.
    let mut items = Vec::with_capacity(alloc, 1)?;
    items.push(first)?;
    append_each(&Behind { kind, reader }, alloc, &[kind], items, tokens)
}

/// One value or more, with commas between them.
pub fn listed<R: Reader>(
    reader: &R,
    alloc: Global,
    tokens: &mut Tokens<'_>,
) -> Result<Vec<R::Item>, Stop>
    ensures { GivesEach R.view result tokens.new (read_separated Comma (R.reads reader.now) tokens.old) }
{
    separated(reader, Kind::Comma, alloc, tokens)
}
