//! The classes that each place of an algorithm asks for.
ghost use Rattle.std.specs.Prelude.{◌≡◌, ◌++◌, OnOk};
ghost use Rattle.fb_expr.specs.Rules.{allows, class_faults};

use fb_iface::{Class, Code, Fault};
use fb_tree::text::Span;
use std::alloc::AllocError;

/// A place of an algorithm that asks for certain classes.
#[derive(Clone, Copy, Debug, PartialEq, Eq)]
pub enum ClassPlace {
    /// After `IF`, `ELSIF`, `WHILE` and `UNTIL`, and the guard of a transition.
    Condition,
    /// The first value of a `FOR`, its last one, and its step; a subscript.
    Count,
    /// The variable of a `FOR`.
    Counter,
    /// What a `CASE` selects by.
    Selector,
}

impl ClassPlace {
    /// Whether this class may be there. One that is not checked may be anywhere.
    pub fn is_for(self, class: Class) -> bool
        ensures { result ≡ allows self class }
    {
        match (self, class) {
            (_, Class::Free) => true,
            (ClassPlace::Condition, Class::B | Class::Any) => true,
            (ClassPlace::Count, Class::I | Class::Num | Class::Any) => true,
            (ClassPlace::Counter, Class::I) => true,
            (ClassPlace::Selector, Class::B) => false,
            (ClassPlace::Selector, _) => true,
            _ => false,
        }
    }
}

/// Reports a rule of classes that is not met.
pub fn report_class(is_met: bool, span: Span, found: &mut Vec<Fault>) -> Result<(), AllocError>
    ensures { OnOk result (found.new.items ≡ found.old.items ++ class_faults is_met span) }
{
    if !is_met {
        found.push(Fault {
            code: Code::Class,
            span,
        })?;
    }
    Ok(())
}
