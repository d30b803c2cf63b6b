//! How classes join, and what operators make of them.
ghost use Rattle.std.specs.Prelude.{◌≡◌};
ghost use Rattle.fb_expr.specs.Classes.{arithmetical, change, class_of_broken, combined, join, logical, operation, whole};

use fb_iface::Class;
use fb_tree::{BinaryOperator, UnaryOperator};

/// The join of two classes, if they have one.
pub fn joined(left: Class, right: Class) -> Option<Class>
    ensures { result ≡ join left right }
{
    match (left, right) {
        (Class::Free, _) | (_, Class::Free) => Some(Class::Free),
        (Class::Any, class) | (class, Class::Any) => Some(class),
        (Class::B, Class::B) => Some(Class::B),
        (Class::I, Class::I | Class::Num) | (Class::Num, Class::I) => Some(Class::I),
        (Class::W, Class::W | Class::Num) | (Class::Num, Class::W) => Some(Class::W),
        (Class::O, Class::O | Class::I | Class::Num) => Some(Class::O),
        (Class::I | Class::Num, Class::O) => Some(Class::O),
        (Class::Num, Class::Num) => Some(Class::Num),
        _ => None,
    }
}

/// The class of an operator before an operand, if its rule holds.
pub fn changed(operator: UnaryOperator, operand: Class) -> Option<Class>
    ensures { result ≡ change operator operand }
{
    match operator {
        UnaryOperator::Not => logic(operand),
        UnaryOperator::Plus | UnaryOperator::Minus => number(operand),
    }
}

/// The class of an operator between two operands, if they join and its rule holds.
pub fn operated(operator: BinaryOperator, left: Class, right: Class) -> Option<Class>
    ensures { result ≡ combined operator left right }
{
    match joined(left, right) {
        None => None,
        Some(class) => applied(operator, class),
    }
}

/// The class of an operator between operands that join to this class, if its rule holds.
fn applied(operator: BinaryOperator, class: Class) -> Option<Class>
    ensures { result ≡ operation operator class }
{
    match operator {
        BinaryOperator::Or | BinaryOperator::Xor | BinaryOperator::And => logic(class),
        BinaryOperator::Equal
        | BinaryOperator::NotEqual
        | BinaryOperator::Less
        | BinaryOperator::Greater
        | BinaryOperator::LessOrEqual
        | BinaryOperator::GreaterOrEqual => Some(Class::B),
        BinaryOperator::Add
        | BinaryOperator::Subtract
        | BinaryOperator::Multiply
        | BinaryOperator::Divide
        | BinaryOperator::Power => number(class),
        BinaryOperator::Modulo => whole_number(class),
    }
}

/// The class of an operation that breaks its rule.
pub fn broken(operator: BinaryOperator) -> Class
    ensures { result ≡ class_of_broken operator }
{
    match operator {
        BinaryOperator::Equal
        | BinaryOperator::NotEqual
        | BinaryOperator::Less
        | BinaryOperator::Greater
        | BinaryOperator::LessOrEqual
        | BinaryOperator::GreaterOrEqual => Class::B,
        _ => Class::Free,
    }
}

fn logic(class: Class) -> Option<Class>
    ensures { result ≡ logical class }
{
    match class {
        Class::I | Class::O => None,
        _ => Some(class),
    }
}

fn number(class: Class) -> Option<Class>
    ensures { result ≡ arithmetical class }
{
    match class {
        Class::B | Class::W => None,
        Class::Any => Some(Class::Num),
        _ => Some(class),
    }
}

fn whole_number(class: Class) -> Option<Class>
    ensures { result ≡ whole class }
{
    match class {
        Class::B | Class::W | Class::O => None,
        Class::Any => Some(Class::Num),
        _ => Some(class),
    }
}
