//! Constants that do not fit their type.
ghost use Rattle.std.specs.Prelude.{◌≡◌, ◌++◌, OnOk};
ghost use Rattle.fb_tree.specs.Tree.{one_value, constant_tree};
ghost use Rattle.fb_iface.specs.Literals.{constant_faults, fits_alone, list_faults, literal_fault, misfits};

use crate::classes::{Class, class_by_use, class_of, class_of_constant, is_taken};
use crate::code::Code;
use crate::fault::Fault;
use fb_tree::text::Span;
use fb_tree::{Constant, Simple, TypeForm, TypeUse};
use std::alloc::AllocError;

/// Reports a constant that does not fit the type, or the elements of a list that do not.
pub fn report_constant(
    used: &TypeUse,
    constant: &Constant,
    found: &mut Vec<Fault>,
) -> Result<(), AllocError>
    ensures { OnOk result
        (found.new.items
        ≡ found.old.items ++ constant_faults used.now (constant_tree constant.now)) }
{
    match constant {
        Constant::One(value) => report_alone(used, value, found),
        Constant::List(values, span) => report_list(used, values.as_slice(), span.span(), found),
    }
}

/// Reports a single constant.
fn report_alone(used: &TypeUse, value: &Simple, found: &mut Vec<Fault>) -> Result<(), AllocError>
    ensures { OnOk result
        (found.new.items ≡ found.old.items ++ constant_faults used.now (one_value value.now)) }
{
    if !is_fit(used.form, class_of(used), class_of_constant(value)) {
        found.push(misfit(value.span()))?;
    }
    Ok(())
}

/// Whether a single constant of the second class fits a type of the first.
fn is_fit(form: TypeForm, class: Class, constant: Class) -> bool
    ensures { result ≡ fits_alone form class constant }
{
    match form {
        TypeForm::Plain | TypeForm::Sized => is_taken(class, constant),
        TypeForm::Array => constant.is_free(),
    }
}

fn report_list(
    used: &TypeUse,
    values: &[Simple],
    span: Span,
    found: &mut Vec<Fault>,
) -> Result<(), AllocError>
    ensures { OnOk result
        (found.new.items ≡ found.old.items ++ list_faults used.now.form used.now values.now span) }
{
    match used.form {
        TypeForm::Array => report_elements(class_by_use(&used.name), values, found),
        TypeForm::Plain | TypeForm::Sized => {
            if !class_of(used).is_free() {
                found.push(misfit(span))?;
            }
            Ok(())
        }
    }
}

/// Reports the elements that a type of this class does not take.
fn report_elements(
    class: Class,
    values: &[Simple],
    found: &mut Vec<Fault>,
) -> Result<(), AllocError>
    ensures { OnOk result (found.new.items ≡ found.old.items ++ misfits class values.now) }
{
    for value in values {
        if !is_taken(class, class_of_constant(value)) {
            found.push(misfit(value.span()))?;
        }
    }
    Ok(())
}

fn misfit(span: Span) -> Fault
    ensures { result ≡ literal_fault span }
{
    Fault {
        code: Code::Literal,
        span,
    }
}
