//! Labels of `CASE`, which are read and not kept.
ghost use Rattle.fb_grammar.specs.{Gives.{Passes}, Reading.{first, is_next, read}, Words.{further}};
ghost use Rattle.fb_structured_text.specs.Statement.{int, label, labels};
ghost use Rattle.std.specs.Prelude.{◌≡◌};

use fb_grammar::{Kind, NUMBERS, Stop, Tokens, is_next, key, one_of};

const PLUS_OR_MINUS: [Kind; 2] = [Kind::Plus, Kind::Minus];

const TYPED: [Kind; 5] = [
    Kind::TypedTruth,
    Kind::TypedInteger,
    Kind::TypedBits,
    Kind::TypedFree,
    Kind::TypedOther,
];

/// Passes over a number with its sign, or a typed literal.
#[tactic(auto, unfolding(crate::specs::Statement::int))]
fn int(tokens: &mut Tokens<'_>) -> Result<(), Stop>
    ensures { Passes result tokens.new (read int tokens.old) }
{
    if is_next(tokens, &TYPED) {
        one_of(tokens, &TYPED)?;
        return Ok(());
    }
    if is_next(tokens, &PLUS_OR_MINUS) {
        one_of(tokens, &PLUS_OR_MINUS)?;
    }
    one_of(tokens, &NUMBERS)?;
    Ok(())
}

/// Passes over a label: one number, or a range of numbers.
#[tactic(auto, unfolding(crate::specs::Statement::label))]
fn label(tokens: &mut Tokens<'_>) -> Result<(), Stop>
    ensures { Passes result tokens.new (read label tokens.old) }
{
    int(tokens)?;
    if !is_next(tokens, &[Kind::Range]) {
        return Ok(());
    }
    key(tokens, Kind::Range)?;
    int(tokens)
}

/// Passes over a comma and a label.
fn further_label(tokens: &mut Tokens<'_>) -> Result<(), Stop>
    ensures { Passes result tokens.new (read (further label) tokens.old) }
{
    key(tokens, Kind::Comma)?;
    label(tokens)
}

/// Passes over one label or more, with commas between them.
#[tactic(auto, unfolding(crate::specs::Statement::labels))]
pub fn labels(tokens: &mut Tokens<'_>) -> Result<(), Stop>
    ensures { Passes result tokens.new (read labels tokens.old) }
{
    label(tokens)?;
    while is_next(tokens, &[Kind::Comma]) {
        further_label(tokens)?;
    }
    Ok(())
}

/// Whether a label comes next.
#[tactic(auto, unfolding(crate::specs::Statement::labels, crate::specs::Statement::label, crate::specs::Statement::int))]
pub fn begins_label(tokens: &Tokens<'_>) -> bool
    ensures { result ≡ is_next (first labels) tokens.now }
{
    is_next(tokens, &TYPED) || is_next(tokens, &PLUS_OR_MINUS) || is_next(tokens, &NUMBERS)
}
