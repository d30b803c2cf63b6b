//! References: names with points between them, each perhaps followed by subscripts.
ghost use Rattle.fb_grammar.specs.{Form.{many}, Gives.{Gives, GivesEach}, Reading.{read}};
ghost use Rattle.fb_structured_text.specs.Expression.{PartTree, flat_part, flat_reference, further_part, part_of, reference_in, reference_value, variable_tree};
ghost use Rattle.fb_structured_text.specs.Part.{part_tree};
ghost use Rattle.fb_tree.specs.Expression.{expression_tree};
ghost use Rattle.std.specs.Prelude.{◌≡◌, IfOk, None, map};

use fb_grammar::{Kind, Reader, Stop, Tokens, is_next, key, name, several};
use fb_tree::text::NameUse;
use fb_tree::{Expr, Member, Reference};
use std::alloc::{AllocError, Global};

/// A name of a reference, with the subscripts after it.
#[derive(Drop)]
pub struct Part {
    pub name: NameUse,
    pub subscripts: Vec<Expr>,
    /// Where the bracket of the subscripts ends, or the name if none are written.
    pub end: u32,
}

/// A name without subscripts.
pub fn alone(alloc: Global, name: NameUse) -> Part
    ensures { part_tree result ≡ part_of name None }
{
    let end = name.span.end();
    Part {
        name,
        subscripts: Vec::new(alloc),
        end,
    }
}

/// A variable: only a name, or a reference with the subscripts of all its names.
#[derive(Drop)]
pub enum Variable {
    Name(NameUse),
    Reference(Box<Reference>, Vec<Expr>),
}

impl Variable {
    /// The variable as an expression.
    pub fn expression(self) -> Expr
        ensures { expression_tree result ≡ reference_value (variable_tree self) }
    {
        match self {
            Variable::Name(name) => Expr::Name(name),
            Variable::Reference(reference, subscripts) => Expr::Reference(reference, subscripts),
        }
    }
}

/// The variable of these parts.
pub fn joined(alloc: Global, first: Part, others: Vec<Part>) -> Result<Variable, AllocError>
    ensures { IfOk result
        (λ v. variable_tree v ≡ reference_in (part_tree first, map part_tree others.items)) }
{
    let count = first.subscripts.len();
    let mut subscripts = first.subscripts;
    let mut members = Vec::with_capacity(alloc, others.len())?;
    let mut end = first.end;
    for part in others {
        let mut behind = part.subscripts;
        members.push(Member {
            name: part.name,
            subscripts: behind.len(),
        })?;
        subscripts.append(&mut behind)?;
        end = part.end;
    }
    let reference = Reference::new(alloc, first.name, count, members, end)?;
    Ok(Variable::Reference(Box::new(alloc, reference)?, subscripts))
}

/// A name without subscripts.
#[tactic(auto, unfolding(crate::specs::Expression::flat_part))]
fn flat_part(alloc: Global, tokens: &mut Tokens<'_>) -> Result<Part, Stop>
    ensures { Gives part_tree result tokens.new (read flat_part tokens.old) }
{
    let name = name(alloc, tokens)?;
    Ok(alone(alloc, name))
}

/// Reads a point and a name.
#[derive(Drop)]
struct FlatReader;

impl Reader for FlatReader {
    type Item = Part;

    ghost Tree = { PartTree };

    ghost view = { part_tree };

    ghost reads = { λ _. read (further_part flat_part) };

    fn read(&self, alloc: Global, tokens: &mut Tokens<'_>) -> Result<Part, Stop> {
        key(tokens, Kind::Point)?;
        flat_part(alloc, tokens)
    }
}

/// The names after the first one, each after a point.
fn flat_members(alloc: Global, tokens: &mut Tokens<'_>) -> Result<Vec<Part>, Stop>
    ensures { GivesEach part_tree result tokens.new (read (many (further_part flat_part)) tokens.old) }
{
    several(&FlatReader, alloc, &[Kind::Point], tokens)
}

/// A reference without subscripts.
#[tactic(auto, unfolding(crate::specs::Expression::flat_reference))]
pub fn flat_reference(alloc: Global, tokens: &mut Tokens<'_>) -> Result<Variable, Stop>
    ensures { Gives variable_tree result tokens.new (read flat_reference tokens.old) }
{
    let first = name(alloc, tokens)?;
    if !is_next(tokens, &[Kind::Point]) {
        return Ok(Variable::Name(first));
    }
    let others = flat_members(alloc, tokens)?;
    Ok(joined(alloc, alone(alloc, first), others)?)
}
