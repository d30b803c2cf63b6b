//! Nets beside the kept net of one unit, of which each allocation is refused in turn.
ghost use Rattle.std.specs.Prelude.{◌≡◌, Some};
ghost use Rattle.fb_library.specs.Texts.{sources_of};
ghost use Rattle.fb_flatten.specs.{Net.{plain_net}, Nets.{net_at}};

use crate::kept::{BORDERS, Kept, PLUGGED, kept_of, net_beside};
use crate::told::net_told;
use crate::units::library_of;
use fb_flatten::{Net, has_net};
use fb_library::Library;
use fb_tree::text::Name;
use refusing::{Trial, try_call};
use std::alloc::{AllocError, Global};
use std::test::Fail;

/// A library, and the net of one of its units.
#[derive(Drop)]
struct Beside {
    library: Library,
    kept: Kept,
    ghost right: { net_at (sources_of library) kept.unit ≡ Some (plain_net kept.net) },
}

impl Beside {
    fn of_units(alloc: Global, texts: &str, inner: &str) -> Result<Beside, Fail> {
        let library = library_of(alloc, texts)?;
        let kept = kept_of(alloc, &library, inner)?;
        Ok(Beside { library, kept })
    }

    fn net_of(&self, alloc: Global, unit: Name) -> Result<Option<Net>, AllocError> {
        if !has_net(&self.library, &unit) {
            return Ok(None);
        }
        Ok(Some(net_beside(alloc, &self.library, unit, &self.kept)?))
    }
}

/// What is composed, of these units: the unit whose net is kept, and the other.
type Row = (&'static str, &'static str, &'static str, &'static str);

/// A net that is composed beside the kept one.
#[derive(Drop)]
struct Composed {
    beside: Beside,
    unit: Name,
    found: Option<Net>,
}

impl Trial for Composed {
    type Setting = Row;

    fn new(alloc: Global, row: Row) -> Result<Composed, Fail> {
        let (_, texts, inner, unit) = row;
        Ok(Composed {
            beside: Beside::of_units(alloc, texts, inner)?,
            unit: Name::read(unit)?,
            found: None,
        })
    }

    fn call(&mut self, alloc: Global) -> bool {
        match self.beside.net_of(alloc, self.unit) {
            Ok(found) => {
                self.found = found;
                true
            }
            Err(_) => false,
        }
    }

    fn told(&self, alloc: Global) -> Result<String, Fail> {
        match &self.found {
            Some(net) => net_told(alloc, net),
            None => Ok(String::from_str(alloc, "none")?),
        }
    }
}

const NETS: &[Row] = &[
    (" beside an inner net", BORDERS, "INNER", "OUTER"),
    (" beside the net between", BORDERS, "MID", "OUTER"),
    (" beside a net with a socket", PLUGGED, "SB", "TP"),
];

#[test]
fn nets_beside_kept_ones(rt: HostRuntime) -> Result<(), Fail> {
    for row in NETS {
        try_call::<Composed>(&rt, rt.alloc(), "net_with", row.0, *row)?;
    }
    Ok(())
}
