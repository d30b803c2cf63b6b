//! Classes of types and constants.
ghost use Rattle.std.specs.Prelude.{◌≡◌};
ghost use Rattle.fb_iface.specs.Class.{class_of_literal, class_of_name, class_of_simple, class_of_type, is_free, named_class, takes};

use fb_tree::text::{NameUse, TypeClass, type_class};
use fb_tree::{LiteralForm, Simple, TypeForm, TypeUse};

/// What a value may be combined with.
#[derive(Clone, Copy, Debug, PartialEq, Eq)]
pub enum Class {
    /// Truth values.
    B,
    /// Whole numbers.
    I,
    /// Strings of bits.
    W,
    /// All other values.
    O,
    /// What is not checked.
    Free,
    /// A number, which is a whole number or a string of bits.
    Num,
    /// `0` or `1`, which is a truth value too.
    Any,
}

fn class_by_type(class: TypeClass) -> Class
    ensures { result ≡ named_class class }
{
    match class {
        TypeClass::Truth => Class::B,
        TypeClass::Integer => Class::I,
        TypeClass::Bits => Class::W,
        TypeClass::Free => Class::Free,
        TypeClass::Other => Class::O,
    }
}

/// The class of a type. That of an array is not the class of its elements.
pub fn class_of(used: &TypeUse) -> Class
    ensures { result ≡ class_of_type used.now }
{
    match used.form {
        TypeForm::Plain => class_by_use(&used.name),
        TypeForm::Sized | TypeForm::Array => Class::O,
    }
}

/// The class of the type that is used by this name.
pub fn class_by_use(used: &NameUse) -> Class
    ensures { result ≡ class_of_name used.now.name }
{
    class_by_type(type_class(used.name.as_str().as_bytes()))
}

/// The class of a literal.
pub fn class_by_form(form: LiteralForm) -> Class
    ensures { result ≡ class_of_literal form }
{
    match form {
        LiteralForm::Bit => Class::Any,
        LiteralForm::Whole => Class::Num,
        LiteralForm::Real | LiteralForm::Text => Class::O,
        LiteralForm::Typed(class) => class_by_type(class),
        LiteralForm::Truth => Class::B,
    }
}

/// The class of a constant.
pub fn class_of_constant(constant: &Simple) -> Class
    ensures { result ≡ class_of_simple constant.now }
{
    match constant {
        Simple::Literal(literal) => class_by_form(literal.form),
        Simple::Name(_) => Class::Free,
    }
}

/// Whether a type of the first class takes a constant of the second.
pub fn is_taken(kind: Class, constant: Class) -> bool
    ensures { result ≡ takes kind constant }
{
    match (kind, constant) {
        (Class::Free, _) | (_, Class::Free) => true,
        (Class::B, Class::B | Class::Any) => true,
        (Class::I, Class::I | Class::Num | Class::Any) => true,
        (Class::W, Class::W | Class::Num | Class::Any) => true,
        (Class::O, Class::O | Class::I | Class::Num | Class::Any) => true,
        _ => false,
    }
}

impl Class {
    /// Whether it is not checked.
    pub fn is_free(self) -> bool
        ensures { result ≡ is_free self }
    {
        match self {
            Class::Free => true,
            _ => false,
        }
    }
}
