//! Types and constants.

ghost use Rattle.fb_grammar.specs.{Gives.{Gives, Passes}, Reading.{read}};
ghost use Rattle.fb_sections.specs.Constants.{array_type, constant, constant_list, number, plain_type, range, ranges, signed_form, simple, type_use};
ghost use Rattle.fb_tree.specs.{Tree.{constant_tree}, declared.constant.Simple.{Simple}};
ghost use Rattle.std.specs.Prelude.{◌≡◌};

use fb_grammar::{
    Kind, NAMES, NUMBERS, Reader, Stop, Tokens, is_next, key, listed, literal_form, literal_use,
    name, one_of,
};
use fb_tree::{Constant, Literal, LiteralForm, Simple, TypeForm, TypeUse};
use std::alloc::Global;

const SIGNS: [Kind; 2] = [Kind::Plus, Kind::Minus];

/// The kinds of literals that are no numbers.
const OTHER_LITERALS: [Kind; 8] = [
    Kind::TypedTruth,
    Kind::TypedInteger,
    Kind::TypedBits,
    Kind::TypedFree,
    Kind::TypedOther,
    Kind::Text,
    Kind::True,
    Kind::False,
];

fn signed_form(form: LiteralForm) -> LiteralForm
    ensures { result ≡ signed_form form }
{
    match form {
        LiteralForm::Bit => LiteralForm::Whole,
        other => other,
    }
}

/// A number, perhaps with a sign.
#[tactic(auto, unfolding(crate::specs::Constants::number))]
fn number(tokens: &mut Tokens<'_>) -> Result<Literal, Stop>
    ensures { Gives (λ number. number) result tokens.new (read number tokens.old) }
{
    if !is_next(tokens, &SIGNS) {
        let token = one_of(tokens, &NUMBERS)?;
        return Ok(literal_use(&token));
    }
    let sign = one_of(tokens, &SIGNS)?;
    let token = one_of(tokens, &NUMBERS)?;
    let number = Literal {
        form: signed_form(literal_form(token.kind)),
        span: sign.span.through(token.span),
    };
    Ok(number)
}

/// Reads the ranges of an array, which are not kept.
#[derive(Drop)]
struct RangeReader;

impl Reader for RangeReader {
    type Item = ();

    ghost Tree = { Unit {0} };

    ghost view = { λ unit. unit };

    ghost reads = { λ _. read range };

    #[tactic(auto, unfolding(crate::specs::Constants::range))]
    fn read(&self, _alloc: Global, tokens: &mut Tokens<'_>) -> Result<(), Stop> {
        number(tokens)?;
        key(tokens, Kind::Range)?;
        number(tokens)?;
        Ok(())
    }
}

/// Ranges with commas between them.
#[tactic(auto, unfolding(crate::specs::Constants::ranges))]
fn ranges(alloc: Global, tokens: &mut Tokens<'_>) -> Result<(), Stop>
    ensures { Passes result tokens.new (read ranges tokens.old) }
{
    listed(&RangeReader, alloc, tokens)?;
    Ok(())
}

#[tactic(auto, unfolding(crate::specs::Constants::plain_type, crate::specs::Constants::length_of_string))]
fn plain_type(alloc: Global, tokens: &mut Tokens<'_>) -> Result<TypeUse, Stop>
    ensures { Gives (λ type. type) result tokens.new (read plain_type tokens.old) }
{
    let name = name(alloc, tokens)?;
    if !is_next(tokens, &[Kind::OpenBracket]) {
        let span = name.span;
        let plain = TypeUse {
            name,
            form: TypeForm::Plain,
            span,
        };
        return Ok(plain);
    }
    key(tokens, Kind::OpenBracket)?;
    one_of(tokens, &NUMBERS)?;
    let close = key(tokens, Kind::CloseBracket)?;
    let span = name.span.through(close);
    let sized = TypeUse {
        name,
        form: TypeForm::Sized,
        span,
    };
    Ok(sized)
}

#[tactic(auto, unfolding(crate::specs::Constants::array_type))]
fn array_type(alloc: Global, tokens: &mut Tokens<'_>) -> Result<TypeUse, Stop>
    ensures { Gives (λ type. type) result tokens.new (read array_type tokens.old) }
{
    let array = key(tokens, Kind::Array)?;
    key(tokens, Kind::OpenBracket)?;
    ranges(alloc, tokens)?;
    key(tokens, Kind::CloseBracket)?;
    key(tokens, Kind::Of)?;
    let element = name(alloc, tokens)?;
    let span = array.through(element.span);
    let array = TypeUse {
        name: element,
        form: TypeForm::Array,
        span,
    };
    Ok(array)
}

/// A type at the place of its use.
#[tactic(auto, unfolding(crate::specs::Constants::type_use, crate::specs::Constants::plain_type, fb_grammar::specs::Words::name))]
pub fn type_use(alloc: Global, tokens: &mut Tokens<'_>) -> Result<TypeUse, Stop>
    ensures { Gives (λ type. type) result tokens.new (read type_use tokens.old) }
{
    if is_next(tokens, &NAMES) {
        plain_type(alloc, tokens)
    } else {
        array_type(alloc, tokens)
    }
}

#[tactic(auto, unfolding(crate::specs::Constants::simple, fb_grammar::specs::Words::name))]
fn simple(alloc: Global, tokens: &mut Tokens<'_>) -> Result<Simple, Stop>
    ensures { Gives (λ constant. constant) result tokens.new (read simple tokens.old) }
{
    if is_next(tokens, &NAMES) {
        let token = name(alloc, tokens)?;
        Ok(Simple::Name(token))
    } else if is_next(tokens, &OTHER_LITERALS) {
        let token = one_of(tokens, &OTHER_LITERALS)?;
        Ok(Simple::Literal(literal_use(&token)))
    } else {
        Ok(Simple::Literal(number(tokens)?))
    }
}

/// Reads simple constants.
#[derive(Drop)]
struct SimpleReader;

impl Reader for SimpleReader {
    type Item = Simple;

    ghost Tree = { Simple };

    ghost view = { λ value. value };

    ghost reads = { λ _. read simple };

    fn read(&self, alloc: Global, tokens: &mut Tokens<'_>) -> Result<Simple, Stop> {
        simple(alloc, tokens)
    }
}

/// Simple constants in brackets.
#[tactic(auto, unfolding(crate::specs::Constants::constant_list), using(fb_grammar::proofs::Repeating::as_they_are))]
fn constant_list(alloc: Global, tokens: &mut Tokens<'_>) -> Result<Constant, Stop>
    ensures { Gives constant_tree result tokens.new (read constant_list tokens.old) }
{
    let open = key(tokens, Kind::OpenBracket)?;
    let values = listed(&SimpleReader, alloc, tokens)?;
    let close = key(tokens, Kind::CloseBracket)?;
    Ok(Constant::List(values, open.through(close)))
}

/// A constant.
#[tactic(auto, unfolding(crate::specs::Constants::constant, crate::specs::Constants::constant_list))]
pub fn constant(alloc: Global, tokens: &mut Tokens<'_>) -> Result<Constant, Stop>
    ensures { Gives constant_tree result tokens.new (read constant tokens.old) }
{
    if is_next(tokens, &[Kind::OpenBracket]) {
        return constant_list(alloc, tokens);
    }
    Ok(Constant::One(simple(alloc, tokens)?))
}
