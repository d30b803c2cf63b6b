//! Operators and literals, by their tokens.
ghost use Rattle.fb_grammar.specs.{Form.{as_value, one}, Gives.{Gives}, Kind.{is_among}, Reading.{first, is_next, read}};
ghost use Rattle.fb_structured_text.specs.Expression.{literal};
ghost use Rattle.fb_structured_text.specs.Operators.{binary_operator, binary_use, next_strength, operators, signs, strength_of, unary_operator, unary_use};
ghost use Rattle.fb_tree.specs.Expression.{expression_tree};
ghost use Rattle.std.specs.Prelude.{◌≡◌, ◌<◌, true};

use fb_grammar::{Kind, Stop, Tokens, is_next, literal_use, one_of};
use fb_tree::{BinaryOperator, BinaryUse, Expr, UnaryOperator, UnaryUse};

/// The operators before an operand.
pub const SIGNS: [Kind; 3] = [Kind::Plus, Kind::Minus, Kind::Not];

/// The operators between operands, the weakest first.
const STRENGTHS: [&[Kind]; 8] = [
    &[Kind::Or],
    &[Kind::Xor],
    &[Kind::Ampersand, Kind::And],
    &[Kind::Equal, Kind::NotEqual],
    &[
        Kind::Less,
        Kind::Greater,
        Kind::LessEqual,
        Kind::GreaterEqual,
    ],
    &[Kind::Plus, Kind::Minus],
    &[Kind::Times, Kind::Divide, Kind::Mod],
    &[Kind::Power],
];

/// The operators of a strength, of which 0 is the weakest.
pub fn operators(strength: u8) -> &'static [Kind]
    requires { strength < 8 }
    ensures { result.now ≡ operators strength }
{
    STRENGTHS[strength as usize]
}

/// The strength of an operator between operands, 8 of any other token.
fn strength_of(kind: Kind) -> u8
    ensures { result ≡ strength_of kind }
{
    match kind {
        Kind::Or => 0,
        Kind::Xor => 1,
        Kind::Ampersand | Kind::And => 2,
        Kind::Equal | Kind::NotEqual => 3,
        Kind::Less | Kind::Greater | Kind::LessEqual | Kind::GreaterEqual => 4,
        Kind::Plus | Kind::Minus => 5,
        Kind::Times | Kind::Divide | Kind::Mod => 6,
        Kind::Power => 7,
        _ => 8,
    }
}

/// The strength of the operator that comes next, 8 if none comes.
pub fn next_strength(tokens: &Tokens<'_>) -> u8
    ensures { result ≡ next_strength tokens.now }
{
    strength_of(tokens.kind())
}

fn unary_operator(kind: Kind) -> UnaryOperator
    requires { is_among signs kind ≡ true }
    ensures { result ≡ unary_operator kind }
{
    match kind {
        Kind::Plus => UnaryOperator::Plus,
        Kind::Minus => UnaryOperator::Minus,
        Kind::Not => UnaryOperator::Not,
        _ => unreachable!(),
    }
}

fn binary_operator(kind: Kind) -> BinaryOperator
    requires { strength_of kind < 8 }
    ensures { result ≡ binary_operator kind }
{
    match kind {
        Kind::Or => BinaryOperator::Or,
        Kind::Xor => BinaryOperator::Xor,
        Kind::Ampersand | Kind::And => BinaryOperator::And,
        Kind::Equal => BinaryOperator::Equal,
        Kind::NotEqual => BinaryOperator::NotEqual,
        Kind::Less => BinaryOperator::Less,
        Kind::Greater => BinaryOperator::Greater,
        Kind::LessEqual => BinaryOperator::LessOrEqual,
        Kind::GreaterEqual => BinaryOperator::GreaterOrEqual,
        Kind::Plus => BinaryOperator::Add,
        Kind::Minus => BinaryOperator::Subtract,
        Kind::Times => BinaryOperator::Multiply,
        Kind::Divide => BinaryOperator::Divide,
        Kind::Mod => BinaryOperator::Modulo,
        Kind::Power => BinaryOperator::Power,
        _ => unreachable!(),
    }
}

/// An operator before an operand.
pub fn sign(tokens: &mut Tokens<'_>) -> Result<UnaryUse, Stop>
    ensures { Gives (λ sign. sign) result tokens.new (read (as_value unary_use (one signs)) tokens.old) }
{
    let token = one_of(tokens, &SIGNS)?;
    let sign = UnaryUse {
        operator: unary_operator(token.kind),
        span: token.span,
    };
    Ok(sign)
}

/// An operator of this strength between operands.
pub fn operator(tokens: &mut Tokens<'_>, strength: u8) -> Result<BinaryUse, Stop>
    requires { strength < 8 }
    ensures { Gives (λ operator. operator) result tokens.new
        (read (as_value binary_use (one (operators strength))) tokens.old) }
{
    let token = one_of(tokens, operators(strength))?;
    let operator = BinaryUse {
        operator: binary_operator(token.kind),
        span: token.span,
    };
    Ok(operator)
}

const LITERALS: [Kind; 12] = [
    Kind::Zero,
    Kind::One,
    Kind::Number,
    Kind::RealNumber,
    Kind::TypedTruth,
    Kind::TypedInteger,
    Kind::TypedBits,
    Kind::TypedFree,
    Kind::TypedOther,
    Kind::Text,
    Kind::True,
    Kind::False,
];

/// Whether the next token is a literal.
#[tactic(auto, unfolding(crate::specs::Expression::literal))]
pub fn is_literal(tokens: &Tokens<'_>) -> bool
    ensures { result ≡ is_next (first literal) tokens.now }
{
    is_next(tokens, &LITERALS)
}

/// A literal.
#[tactic(auto, unfolding(crate::specs::Expression::literal))]
pub fn literal(tokens: &mut Tokens<'_>) -> Result<Expr, Stop>
    ensures { Gives expression_tree result tokens.new (read literal tokens.old) }
{
    let token = one_of(tokens, &LITERALS)?;
    Ok(Expr::Literal(literal_use(&token)))
}
