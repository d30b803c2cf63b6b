//! Faults of the ends of connections.
ghost use Rattle.std.specs.Prelude.{◌≡◌, ◌++◌, OnOk};
ghost use Rattle.fb_netcheck.specs.Sides.{connection_span, end_faults, fault_of, is_own, is_own_port, pass_through_faults};

use crate::ends::{Holder, Position, Target, is_right_target, span_of};
use fb_iface::{Code, Fault};
use fb_tree::text::Span;
use fb_tree::{Connection, End, UnitKind};
use std::alloc::AllocError;

/// Reports an end that names no port, or one of the wrong side.
pub fn report_end(
    position: Position,
    end: &End,
    target: &Target<'_>,
    found: &mut Vec<Fault>,
) -> Result<(), AllocError>
    ensures { OnOk result
        (found.new.items ≡ found.old.items ++ end_faults position end.now target.now) }
{
    match target {
        Target::Unknown => found.push(fault_at(Code::PortUnknown, end))?,
        Target::NotChecked => {}
        Target::Found(_, _) => {
            if !is_right_target(position, target) {
                found.push(fault_at(Code::PortSide, end))?;
            }
        }
    }
    Ok(())
}

/// A fault at an end.
pub fn fault_at(code: Code, end: &End) -> Fault
    ensures { result ≡ fault_of code end.now }
{
    Fault {
        code,
        span: span_of(end),
    }
}

/// Reports a connection of a subapplication that joins two of its own ports.
pub fn report_pass_through(
    kind: UnitKind,
    connection: &Connection,
    source: &Target<'_>,
    destination: &Target<'_>,
    found: &mut Vec<Fault>,
) -> Result<(), AllocError>
    ensures { OnOk result (found.new.items
        ≡ found.old.items ++ pass_through_faults kind connection.now source.now destination.now) }
{
    match kind {
        UnitKind::Subapplication => {
            if is_own_target(Position::Source, source)
                && is_own_target(Position::Destination, destination)
            {
                found.push(Fault {
                    code: Code::PassThrough,
                    span: whole_span(connection),
                })?;
            }
            Ok(())
        }
        UnitKind::Block | UnitKind::Adapter | UnitKind::System | UnitKind::Structure => Ok(()),
    }
}

/// Whether an end names an own port of the right side.
fn is_own_target(position: Position, target: &Target<'_>) -> bool
    ensures { result ≡ is_own_port position target.now }
{
    match target {
        Target::Unknown | Target::NotChecked => false,
        Target::Found(holder, _) => is_own_holder(*holder) && is_right_target(position, target),
    }
}

fn is_own_holder(holder: Holder) -> bool
    ensures { result ≡ is_own holder }
{
    match holder {
        Holder::Own => true,
        Holder::OfInstance | Holder::OfPlug | Holder::OfSocket => false,
    }
}

/// From the start of the source through the destination.
fn whole_span(connection: &Connection) -> Span
    ensures { result ≡ connection_span connection.now }
{
    Span {
        start: span_of(&connection.source).start,
        end: span_of(&connection.destination).end,
    }
}
