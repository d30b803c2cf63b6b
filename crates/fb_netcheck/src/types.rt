//! The types of what connections join.
ghost use Rattle.std.specs.{Prelude.{◌≡◌, ◌++◌, IfOk, OnOk}, BTreeMap.{get}};
ghost use Rattle.fb_netcheck.specs.{Known.{AreSpellings, part_cmp}, Ends.{target}, Settings.{place_in}};
ghost use Rattle.fb_netcheck.specs.Types.{flows_agree, home, joined_types, same_at_ends, targets_agree};

use crate::ends::{Flow, Position, Target, is_right_target};
use crate::repeats::is_same_name;
use crate::setting::Setting;
use crate::sides::fault_at;
use crate::spellings::{Spellings, is_same_type};
use fb_iface::library::View;
use fb_iface::{Code, Fault, class_of};
use fb_tree::text::Name;
use fb_tree::{Connection, End, TypeForm, TypeUse};
use std::alloc::{AllocError, Global};

/// Reports a connection whose ends are of the right sides and of two types. The ends name these.
pub fn report_type<V: View>(
    alloc: Global,
    view: &V,
    here: &Setting<'_>,
    connection: &Connection,
    source: &Target<'_>,
    destination: &Target<'_>,
    known: &mut Spellings,
    found: &mut Vec<Fault>,
) -> Result<(), AllocError>
    requires source { source.now ≡ target (place_in here.now) connection.now.sort connection.now.source }
    requires destination { destination.now ≡ target (place_in here.now) connection.now.sort connection.now.destination }
    requires known { AreSpellings (V.sources view.now) (get part_cmp known.old) }
    ensures kept { OnOk result (AreSpellings (V.sources view.now) (get part_cmp known.new)) }
    ensures reported { OnOk result (found.new.items
        ≡ found.old.items ++ joined_types (V.sources view.now) (place_in here.now) connection.now) }
{
    if is_right_target(Position::Source, source)
        && is_right_target(Position::Destination, destination)
    {
        if !are_agreed(alloc, view, here, connection, source, destination, known)? {
            found.push(fault_at(Code::DataType, &connection.destination))?;
        }
    }
    Ok(())
}

/// The unit in whose text the port at an end is declared.
fn home_at(here: &Setting<'_>, end: &End) -> Name
    ensures { result ≡ home (place_in here.now) end.now }
{
    match &end.port {
        None => here.unit,
        Some(_) => match here.scope.own().instance(&end.name.name.name()) {
            Some(instance) => instance.type_name().name.name(),
            None => here.unit,
        },
    }
}

/// Whether the ports at the ends of a connection are of one type.
fn are_agreed<V: View>(
    alloc: Global,
    view: &V,
    here: &Setting<'_>,
    connection: &Connection,
    target: &Target<'_>,
    other: &Target<'_>,
    known: &mut Spellings,
) -> Result<bool, AllocError>
    requires { AreSpellings (V.sources view.now) (get part_cmp known.old) }
    ensures kept { OnOk result (AreSpellings (V.sources view.now) (get part_cmp known.new)) }
    ensures agreed { IfOk result (λ agreed. agreed
        ≡ targets_agree
        (same_at_ends (V.sources view.now) (place_in here.now) connection.now) target.now
        other.now) }
{
    match (target, other) {
        (Target::Found(_, port), Target::Found(_, other)) => {
            is_flow_agreed(
                alloc,
                view,
                here,
                connection,
                &port.flow,
                &other.flow,
                known,
            )
        }
        _ => Ok(true),
    }
}

fn is_flow_agreed<V: View>(
    alloc: Global,
    view: &V,
    here: &Setting<'_>,
    connection: &Connection,
    flow: &Flow<'_>,
    other: &Flow<'_>,
    known: &mut Spellings,
) -> Result<bool, AllocError>
    requires { AreSpellings (V.sources view.now) (get part_cmp known.old) }
    ensures kept { OnOk result (AreSpellings (V.sources view.now) (get part_cmp known.new)) }
    ensures agreed { IfOk result (λ agreed. agreed
        ≡ flows_agree
        (same_at_ends (V.sources view.now) (place_in here.now) connection.now) flow.now other.now) }
{
    match (flow, other) {
        (Flow::Data(used), Flow::Data(other)) => {
            let (used, other) = (used.get(), other.get());
            if class_of(used).is_free() || class_of(other).is_free() {
                Ok(true)
            } else {
                is_same_at_ends(alloc, view, here, connection, used, other, known)
            }
        }
        (Flow::Adapter(used), Flow::Adapter(other)) => Ok(is_same_name(used.get(), other.get())),
        _ => Ok(true),
    }
}

/// Whether two types, each at an end of a connection, are spelled alike. The units that declare them are looked up only if texts are compared.
fn is_same_at_ends<V: View>(
    alloc: Global,
    view: &V,
    here: &Setting<'_>,
    connection: &Connection,
    used: &TypeUse,
    other: &TypeUse,
    known: &mut Spellings,
) -> Result<bool, AllocError>
    requires { AreSpellings (V.sources view.now) (get part_cmp known.old) }
    ensures kept { OnOk result (AreSpellings (V.sources view.now) (get part_cmp known.new)) }
    ensures same { IfOk result (λ same. same
        ≡ same_at_ends (V.sources view.now) (place_in here.now) connection.now used.now other.now) }
{
    match (used.form, other.form) {
        (TypeForm::Plain, TypeForm::Plain) => Ok(is_same_name(&used.name, &other.name)),
        _ => {
            let unit = home_at(here, &connection.source);
            let other_unit = home_at(here, &connection.destination);
            is_same_type(alloc, view, &unit, used, &other_unit, other, known)
        }
    }
}
