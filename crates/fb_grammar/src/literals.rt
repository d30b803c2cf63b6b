//! Literals by the kinds of their tokens.

ghost use Rattle.fb_grammar.specs.{Literals.{literal_at, literal_form, literal_kinds}, Kind.{is_among}};
ghost use Rattle.std.specs.Prelude.{◌≡◌, true};

use crate::kind::Kind;
use crate::naming::Taken;
use fb_tree::text::TypeClass;
use fb_tree::{Literal, LiteralForm};

/// The kinds of numbers.
pub const NUMBERS: [Kind; 4] = [Kind::Zero, Kind::One, Kind::Number, Kind::RealNumber];

/// The form of a literal of this kind, as far as it is written without a sign.
pub fn literal_form(kind: Kind) -> LiteralForm
    requires { is_among literal_kinds kind ≡ true }
    ensures { result ≡ literal_form kind }
{
    match kind {
        Kind::Zero | Kind::One => LiteralForm::Bit,
        Kind::Number => LiteralForm::Whole,
        Kind::RealNumber => LiteralForm::Real,
        Kind::TypedTruth => LiteralForm::Typed(TypeClass::Truth),
        Kind::TypedInteger => LiteralForm::Typed(TypeClass::Integer),
        Kind::TypedBits => LiteralForm::Typed(TypeClass::Bits),
        Kind::TypedFree => LiteralForm::Typed(TypeClass::Free),
        Kind::TypedOther => LiteralForm::Typed(TypeClass::Other),
        Kind::Text => LiteralForm::Text,
        Kind::True | Kind::False => LiteralForm::Truth,
        _ => unreachable!(),
    }
}

/// The literal and its place.
pub fn literal_use(token: &Taken) -> Literal
    requires { is_among literal_kinds token.now.kind ≡ true }
    ensures { result ≡ literal_at token.now.kind token.now.span }
{
    Literal {
        form: literal_form(token.kind),
        span: token.span,
    }
}
