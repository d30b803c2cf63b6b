//! Names after `WITH` (IEC 61499-1, 5.2: the data that go along with an event).
ghost use Rattle.std.specs.Prelude.{◌≡◌, ◌++◌, OnOk};
ghost use Rattle.fb_tree.specs.Tree.{decl_tree, event_tree, interface_tree};
ghost use Rattle.fb_iface.specs.{Declarations.{with_faults_of}, Names.{first_ones, stands_for}, Ports.{meanings_in, variables_in}};
ghost use Rattle.fb_iface.specs.Withs.{goes_along, event_withs, with_faults};

use crate::code::Code;
use crate::fault::Fault;
use crate::ports::{Ports, is_beside};
use fb_tree::text::NameUse;
use fb_tree::{Decl, Event, Interface, Side};
use std::alloc::AllocError;

/// Reports the names after `WITH` that are no data of the event's side. The unit has these ports.
pub fn report_withs(own: &Ports<'_>, decl: &Decl, found: &mut Vec<Fault>) -> Result<(), AllocError>
    requires { own.now ≡ meanings_in (decl_tree decl.now) }
    ensures { OnOk result
        (found.new.items ≡ found.old.items ++ with_faults_of (decl_tree decl.now)) }
{
    match decl {
        Decl::Block(declared) | Decl::Adapter(declared) | Decl::Subapplication(declared) => {
            report_in_interface(own, &declared.interface, found)
        }
        Decl::System(_) | Decl::Structure(_) => Ok(()),
    }
}

/// Reports those of an interface.
fn report_in_interface(
    own: &Ports<'_>,
    interface: &Interface,
    found: &mut Vec<Fault>,
) -> Result<(), AllocError>
    requires { own.now.variables ≡ first_ones (variables_in (interface_tree interface.now)) }
    ensures { OnOk result
        (found.new.items ≡ found.old.items ++ with_faults (interface_tree interface.now)) }
{
    for event in &interface.events {
        report_event(own, event, found)?;
    }
    Ok(())
}

/// Reports those of one event.
fn report_event(own: &Ports<'_>, event: &Event, found: &mut Vec<Fault>) -> Result<(), AllocError>
    ensures { OnOk result (found.new.items
        ≡ found.old.items ++ event_withs (stands_for own.now.variables) (event_tree event.now)) }
{
    for name in &event.with {
        if !goes_along(own, event.side, name) {
            found.push(Fault::at(Code::WithUnknown, name))?;
        }
    }
    Ok(())
}

/// Whether what the name means goes along with an event of this side.
fn goes_along(own: &Ports<'_>, side: Side, name: &NameUse) -> bool
    ensures { result ≡ goes_along side (stands_for own.now.variables name.now.name) }
{
    match own.variable(&name.name.name()) {
        Some(variable) => is_beside(side, variable.section()),
        None => false,
    }
}
