//! Literals and constants.
ghost use Rattle.std.specs.Prelude.{◌≡◌};
ghost use Rattle.fb_tree.specs.Tree.{constant_span, constant_tree, value_span};

use fb_text::{NameUse, Place, Span, TypeClass};

/// What kind of literal it is, as far as its class of values goes.
#[derive(Clone, Copy, Debug, PartialEq, Eq)]
pub enum LiteralForm {
    /// The number `0` or `1`, without a sign.
    Bit,
    /// Another number without a point.
    Whole,
    /// A number with a point.
    Real,
    /// A value with its type before `#`, by the class of that type.
    Typed(TypeClass),
    /// A text in quotes.
    Text,
    /// `TRUE` or `FALSE`.
    Truth,
}

/// A literal and its place. In a constant the span includes the sign.
#[derive(Clone, Copy, Debug)]
pub struct Literal {
    pub form: LiteralForm,
    pub span: Place,
}

/// One constant.
#[derive(Debug)]
pub enum Simple {
    Literal(Literal),
    Name(NameUse),
}

impl Drop for Simple {
    fn drop(self) {
        match self {
            Self::Literal(_) | Self::Name(_) => {}
        }
    }
}

impl Simple {
    /// Its place in its text.
    pub fn span(&self) -> Span
        ensures { result ≡ value_span self.now }
    {
        match self {
            Simple::Literal(literal) => literal.span.span(),
            Simple::Name(name) => name.span.span(),
        }
    }
}

/// An initial value or the value of a parameter. The span of a list includes its brackets.
#[derive(Debug)]
pub enum Constant {
    One(Simple),
    List(Vec<Simple>, Place),
}

impl Drop for Constant {
    fn drop(self) {
        match self {
            Self::One(_) | Self::List(_, _) => {}
        }
    }
}

impl Constant {
    /// Its place in its text.
    pub fn span(&self) -> Span
        ensures { result ≡ constant_span (constant_tree self.now) }
    {
        match self {
            Constant::One(value) => value.span(),
            Constant::List(_, span) => span.span(),
        }
    }
}
