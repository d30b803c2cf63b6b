//! Reading expressions.
ghost use Rattle.fb_grammar.specs.{Form.{as_value, many, option}, Gives.{Gives, GivesEach}, Reading.{read}, Repetition.{with_prefix}, Words.{further}};
ghost use Rattle.fb_structured_text.specs.Expression.{
  deep_part,
  deep_primary,
  deep_reference,
  expression,
  expressions,
  flat_primary,
  further_part,
  levels,
  operand_at,
  parenthesized,
  part_of,
  primary,
  reference,
  reference_value,
  row_at,
  subscripts,
  unary,
  variable_tree,
};
ghost use Rattle.fb_structured_text.specs.Part.{closed_at, part_tree};
ghost use Rattle.fb_tree.specs.Expression.{expression_tree, operand_tree};
ghost use Rattle.std.specs.Prelude.{◌≤◌, ◌<◌, ◌∷◌, [], map};

use crate::operators::{SIGNS, is_literal, literal, next_strength, operator, operators, sign};
use crate::references::{Part, Variable, alone, flat_reference, joined};
use fb_grammar::{Kind, NAMES, Stop, Tokens, is_next, key, name};
use fb_tree::text::{NameUse, Place};
use fb_tree::{BinaryUse, Expr};
use std::alloc::Global;

/// How many levels there are below the outermost expressions and statements.
pub const LEVELS: u8 = 64;

/// An operand at the last level: a literal, or a reference without subscripts.
#[tactic(auto, unfolding(crate::specs::Expression::flat_primary, crate::specs::Expression::literal))]
fn flat_primary(alloc: Global, tokens: &mut Tokens<'_>) -> Result<Expr, Stop>
    ensures { Gives expression_tree result tokens.new (read flat_primary tokens.old) }
{
    if is_literal(tokens) {
        return literal(tokens);
    }
    Ok(flat_reference(alloc, tokens)?.expression())
}

/// An expression in parentheses, which may nest `below` levels.
#[cycle(expression)]
#[tactic(auto, unfolding(crate::specs::Expression::parenthesized))]
fn parenthesized(alloc: Global, below: u8, tokens: &mut Tokens<'_>) -> Result<Expr, Stop>
    ensures { Gives expression_tree result tokens.new (read (parenthesized (expression below)) tokens.old) }
{
    let open = key(tokens, Kind::OpenParenthesis)?;
    let inner = expression_at(alloc, below, tokens)?;
    let close = key(tokens, Kind::CloseParenthesis)?;
    let span = open.through(close);
    Ok(Expr::Parentheses(Box::new(alloc, inner)?, span))
}

/// An operand, which may nest `left` levels.
#[cycle(expression)]
fn primary(alloc: Global, left: u8, tokens: &mut Tokens<'_>) -> Result<Expr, Stop>
    ensures { Gives expression_tree result tokens.new (read (primary left) tokens.old) }
{
    if left == 0 {
        flat_primary(alloc, tokens)
    } else {
        deep_primary(alloc, left - 1, tokens)
    }
}

/// An operand whose parts may nest `below` levels.
#[cycle(expression)]
#[tactic(auto, unfolding(crate::specs::Expression::deep_primary))]
fn deep_primary(alloc: Global, below: u8, tokens: &mut Tokens<'_>) -> Result<Expr, Stop>
    ensures { Gives expression_tree result tokens.new (read (deep_primary (expression below)) tokens.old) }
{
    if is_literal(tokens) {
        literal(tokens)
    } else if is_next(tokens, &NAMES) {
        variable_operand(alloc, below, tokens)
    } else {
        parenthesized(alloc, below, tokens)
    }
}

/// A reference as an operand.
#[cycle(expression)]
fn variable_operand(alloc: Global, below: u8, tokens: &mut Tokens<'_>) -> Result<Expr, Stop>
    ensures { Gives expression_tree result tokens.new
        (read (as_value reference_value (deep_reference (expression below))) tokens.old) }
{
    Ok(deep_reference(alloc, below, tokens)?.expression())
}

/// A name, perhaps with subscripts that may nest `below` levels.
#[cycle(expression)]
#[tactic(auto, unfolding(crate::specs::Expression::deep_part, crate::specs::Expression::subscripts))]
fn deep_part(alloc: Global, below: u8, tokens: &mut Tokens<'_>) -> Result<Part, Stop>
    ensures { Gives part_tree result tokens.new (read (deep_part (expression below)) tokens.old) }
{
    let name = name(alloc, tokens)?;
    part_behind(alloc, below, name, tokens)
}

/// A name that was read, perhaps with subscripts that may nest `below` levels.
#[cycle(expression)]
fn part_behind(
    alloc: Global,
    below: u8,
    name: NameUse,
    tokens: &mut Tokens<'_>,
) -> Result<Part, Stop>
    ensures { Gives part_tree result tokens.new
        (read (as_value (part_of name) (option (subscripts (expression below)))) tokens.old) }
{
    if !is_next(tokens, &[Kind::OpenBracket]) {
        return Ok(alone(alloc, name));
    }
    let (subscripts, close) = subscripts(alloc, below, tokens)?;
    let part = Part {
        name,
        subscripts,
        end: close.end(),
    };
    Ok(part)
}

/// A point and a further name.
#[cycle(expression)]
fn further_part(alloc: Global, below: u8, tokens: &mut Tokens<'_>) -> Result<Part, Stop>
    ensures { Gives part_tree result tokens.new
        (read (further_part (deep_part (expression below))) tokens.old) }
{
    key(tokens, Kind::Point)?;
    deep_part(alloc, below, tokens)
}

/// The names after the first one.
#[cycle(expression)]
fn further_parts(alloc: Global, below: u8, tokens: &mut Tokens<'_>) -> Result<Vec<Part>, Stop>
    ensures { GivesEach part_tree result tokens.new
        (read (many (further_part (deep_part (expression below)))) tokens.old) }
{
    // Most references have one name.
    let mut parts = Vec::new(alloc);
    while is_next(tokens, &[Kind::Point]) {
        let next = further_part(alloc, below, tokens)?;
        parts.push(next)?;
    }
    Ok(parts)
}

/// A reference whose subscripts may nest `below` levels.
#[cycle(expression)]
#[tactic(auto, unfolding(crate::specs::Expression::deep_reference))]
fn deep_reference(alloc: Global, below: u8, tokens: &mut Tokens<'_>) -> Result<Variable, Stop>
    ensures { Gives variable_tree result tokens.new (read (deep_reference (expression below)) tokens.old) }
{
    let name = name(alloc, tokens)?;
    if !is_next(tokens, &[Kind::OpenBracket, Kind::Point]) {
        return Ok(Variable::Name(name));
    }
    let first = part_behind(alloc, below, name, tokens)?;
    let others = further_parts(alloc, below, tokens)?;
    Ok(joined(alloc, first, others)?)
}

/// Subscripts in brackets, with the bracket that closes them.
#[cycle(expression)]
#[tactic(auto, unfolding(crate::specs::Expression::subscripts))]
fn subscripts(alloc: Global, below: u8, tokens: &mut Tokens<'_>) -> Result<(Vec<Expr>, Place), Stop>
    ensures { Gives (λ s. (map expression_tree s.0.items, s.1)) result tokens.new
        (read (as_value closed_at (subscripts (expression below))) tokens.old) }
{
    key(tokens, Kind::OpenBracket)?;
    let subscripts = expressions(alloc, below, tokens)?;
    let close = key(tokens, Kind::CloseBracket)?;
    Ok((subscripts, close))
}

/// Expressions with commas between them.
#[cycle(expression)]
#[tactic(auto, unfolding(crate::specs::Expression::expressions))]
fn expressions(alloc: Global, below: u8, tokens: &mut Tokens<'_>) -> Result<Vec<Expr>, Stop>
    ensures { GivesEach expression_tree result tokens.new (read (expressions (expression below)) tokens.old) }
{
    let first = expression_at(alloc, below, tokens)?;
    // Most names have one subscript.
    let mut expressions = Vec::with_capacity(alloc, 1)?;
    expressions.push(first)?;
    while is_next(tokens, &[Kind::Comma]) {
        let next = further_expression(alloc, below, tokens)?;
        expressions.push(next)?;
    }
    Ok(expressions)
}

/// A comma and an expression.
#[cycle(expression)]
fn further_expression(alloc: Global, below: u8, tokens: &mut Tokens<'_>) -> Result<Expr, Stop>
    ensures { Gives expression_tree result tokens.new (read (further (expression below)) tokens.old) }
{
    key(tokens, Kind::Comma)?;
    expression_at(alloc, below, tokens)
}

/// An operand, with a sign before it if one is written.
#[cycle(expression)]
#[tactic(auto, unfolding(crate::specs::Expression::unary))]
fn unary(alloc: Global, left: u8, tokens: &mut Tokens<'_>) -> Result<Expr, Stop>
    ensures { Gives expression_tree result tokens.new (read (unary (primary left)) tokens.old) }
{
    if !is_next(tokens, &SIGNS) {
        return primary(alloc, left, tokens);
    }
    let sign = sign(tokens)?;
    let value = primary(alloc, left, tokens)?;
    Ok(Expr::Unary(sign, Box::new(alloc, value)?))
}

/// An expression with the operators of a strength and of the stronger ones. The first operand is
/// read once; then rows are built from the strongest operators to the weakest, as far as one is next.
#[cycle(expression)]
fn row(alloc: Global, strength: u8, left: u8, tokens: &mut Tokens<'_>) -> Result<Expr, Stop>
    requires { strength ≤ 8 }
    ensures { Gives expression_tree result tokens.new (read (row_at strength left) tokens.old) }
{
    let mut value = unary(alloc, left, tokens)?;
    let mut level = next_strength(tokens);
    while level >= strength && level < 8 {
        let (operator, operand) = next_operand(alloc, level, left, tokens)?;
        if next_strength(tokens) == level {
            let operands = further_operands(alloc, level, left, operator, operand, tokens)?;
            value = Expr::Row(Box::new(alloc, value)?, operands);
        } else {
            value = Expr::Pair(Box::new(alloc, (value, operator, operand))?);
        }
        level = next_strength(tokens);
    }
    Ok(value)
}

/// An operator of a strength with its operand, and those after them.
#[cycle(expression)]
fn further_operands(
    alloc: Global,
    strength: u8,
    left: u8,
    operator: BinaryUse,
    operand: Expr,
    tokens: &mut Tokens<'_>,
) -> Result<Vec<(BinaryUse, Expr)>, Stop>
    requires { strength < 8 }
    ensures { GivesEach operand_tree result tokens.new
        (with_prefix ((operator, expression_tree operand) ∷ []) (read (many (operand_at strength left)) tokens.old)) }
{
    let mut operands = Vec::with_capacity(alloc, 2)?;
    operands.push((operator, operand))?;
    while is_next(tokens, operators(strength)) {
        operands.push(next_operand(alloc, strength, left, tokens)?)?;
    }
    Ok(operands)
}

/// An operator of a strength and its operand.
#[cycle(expression)]
#[tactic(auto, unfolding(crate::specs::Expression::operand))]
fn next_operand(
    alloc: Global,
    strength: u8,
    left: u8,
    tokens: &mut Tokens<'_>,
) -> Result<(BinaryUse, Expr), Stop>
    requires { strength < 8 }
    ensures { Gives operand_tree result tokens.new (read (operand_at strength left) tokens.old) }
{
    let operator = operator(tokens, strength)?;
    let value = row(alloc, strength + 1, left, tokens)?;
    Ok((operator, value))
}

/// An expression that may nest `left` levels.
#[cycle(expression)]
pub fn expression_at(alloc: Global, left: u8, tokens: &mut Tokens<'_>) -> Result<Expr, Stop>
    ensures { Gives expression_tree result tokens.new (read (expression left) tokens.old) }
{
    row(alloc, 0, left, tokens)
}

/// An expression at the outermost level. The tokens that are left are those after it; on a fault
/// those from the first one that does not continue it.
pub fn expression(alloc: Global, tokens: &mut Tokens<'_>) -> Result<Expr, Stop>
    ensures { Gives expression_tree result tokens.new (read (expression levels) tokens.old) }
{
    expression_at(alloc, LEVELS, tokens)
}

/// A reference with its subscripts, in an expression or statement that may nest `left` levels.
#[tactic(auto, unfolding(crate::specs::Expression::reference))]
pub fn reference(alloc: Global, left: u8, tokens: &mut Tokens<'_>) -> Result<Variable, Stop>
    ensures { Gives variable_tree result tokens.new (read (reference left) tokens.old) }
{
    if left == 0 {
        flat_reference(alloc, tokens)
    } else {
        deep_reference(alloc, left - 1, tokens)
    }
}
