//! The checkers of declarations, expressions, charts and networks, each called alone, and what they find together.
use fb_ecc::ecc_faults;
use fb_expr::expr_faults;
use fb_faults::faults;
use fb_iface::{Code, Fault, iface_faults, sorted_faults};
use fb_library::Library;
use fb_netcheck::net_faults;
use fb_tree::text::Name;
use std::alloc::{AllocError, Global};

/// A checker that can be called alone.
#[derive(Clone, Copy)]
pub enum Checker {
    Declarations,
    Expressions,
    Charts,
    Networks,
}

static CHECKERS: [Checker; 4] = [
    Checker::Declarations,
    Checker::Expressions,
    Checker::Charts,
    Checker::Networks,
];

/// The faults that a checker finds in a unit.
pub fn found_by(
    checker: Checker,
    alloc: Global,
    library: &Library,
    unit: &Name,
) -> Result<Vec<Fault>, AllocError> {
    match checker {
        Checker::Declarations => iface_faults(alloc, library, unit),
        Checker::Expressions => expr_faults(alloc, library, unit),
        Checker::Charts => ecc_faults(alloc, library, unit),
        Checker::Networks => net_faults(alloc, library, unit),
    }
}

/// Whether a checker can find a fault with this code. Those of broken texts and of mappings are found by `faults` alone.
fn is_of_checkers(code: Code) -> bool {
    !matches!(
        code,
        Code::Syntax | Code::MappedTwice | Code::NoSuchResource
    )
}

/// Whether the checkers find these faults together, in order, each once.
pub fn find(
    alloc: Global,
    library: &Library,
    unit: &Name,
    expected: &[Fault],
) -> Result<bool, AllocError> {
    let mut joined = Vec::new(alloc);
    for checker in &CHECKERS {
        let found = found_by(*checker, alloc, library, unit)?;
        joined.extend_from_slice(found.as_slice())?;
    }
    let found = sorted_faults(alloc, joined.as_slice())?;
    Ok(found.as_slice() == expected)
}

/// Whether the faults of a unit, but for those of a broken text and of mappings, are those that the checkers find together.
pub fn are_found_together(
    alloc: Global,
    library: &Library,
    unit: &Name,
) -> Result<bool, AllocError> {
    let mut expected = Vec::new(alloc);
    for fault in &faults(alloc, library, unit)? {
        if is_of_checkers(fault.code) {
            expected.push(*fault)?;
        }
    }
    find(alloc, library, unit, expected.as_slice())
}
