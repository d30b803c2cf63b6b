//! Nets, placements and plans, of which each allocation is refused in turn.
use crate::told::{deploy_told, net_told, placed_told};
use crate::units::library_of;
use fb_deploy::{Deploy, plan};
use fb_flatten::{Net, has_net, net};
use fb_library::Library;
use fb_mapping::{Placed, is_system, place};
use fb_tree::text::Name;
use refusing::{Trial, try_call};
use std::alloc::{AllocError, Global};
use std::test::Fail;

// Subapplications in one another, and a system that maps the outer one.
const MAPPED: &str = r#"
FUNCTION_BLOCK T EVENT_INPUT I; END_EVENT EVENT_OUTPUT O; END_EVENT VAR_INPUT DT:TIME; END_VAR END_FUNCTION_BLOCK
SUBAPPLICATION INNER EVENT_INPUT E; END_EVENT FBS F:T; G:T(DT:=T#250ms); END_FBS EVENT_CONNECTIONS E TO F.I; F.O TO G.I; END_CONNECTIONS END_SUBAPPLICATION
SUBAPPLICATION OUTER FBS H:T; END_FBS SUBAPPS X:INNER; END_SUBAPPS EVENT_CONNECTIONS H.O TO X.E; END_CONNECTIONS END_SUBAPPLICATION
SYSTEM Y APPLICATION APP SUBAPPS SUB:OUTER; END_SUBAPPS END_APPLICATION DEVICE D:DT RESOURCE R1:RT END_RESOURCE RESOURCE R2:RT END_RESOURCE END_DEVICE MAPPINGS APP.SUB ON D.R1; APP.SUB.X.F ON D.R2; END_MAPPINGS END_SYSTEM
"#;

// The same with a mapping of nothing and a block that is mapped to nothing.
const MISPLACED: &str = r#"
FUNCTION_BLOCK T END_FUNCTION_BLOCK
SYSTEM Y APPLICATION APP FBS F:T; END_FBS END_APPLICATION DEVICE D:DT RESOURCE R1:RT END_RESOURCE END_DEVICE MAPPINGS APP.Z ON D.R1; END_MAPPINGS END_SYSTEM
"#;

// Two types that hold each other.
const RECURSIVE: &str = r#"
FUNCTION_BLOCK A FBS X:B; END_FBS END_FUNCTION_BLOCK
FUNCTION_BLOCK B FBS Z:A; END_FBS END_FUNCTION_BLOCK
SYSTEM Y APPLICATION APP FBS F:A; END_FBS END_APPLICATION END_SYSTEM
"#;

// A type that is absent.
const BLOCKED: &str = r#"
SYSTEM Y APPLICATION APP FBS F:A; END_FBS END_APPLICATION END_SYSTEM
"#;

/// A call.
#[derive(Clone, Copy)]
enum Which {
    Net,
    Place,
    Plan,
}

/// What a call answers.
#[derive(Drop)]
enum Found {
    Net(Net),
    Placed(Placed),
    Deploy(Deploy),
}

/// A call on the system of a library.
#[derive(Drop)]
struct Built {
    which: Which,
    library: Library,
    unit: Name,
    found: Option<Found>,
}

fn net_found(alloc: Global, library: &Library, unit: Name) -> Result<Option<Found>, AllocError> {
    if !has_net(library, &unit) {
        return Ok(None);
    }
    Ok(Some(Found::Net(net(alloc, library, unit)?)))
}

fn placed_found(alloc: Global, library: &Library, unit: Name) -> Result<Option<Found>, AllocError> {
    if !is_system(library, &unit) {
        return Ok(None);
    }
    Ok(Some(Found::Placed(place(alloc, library, unit)?)))
}

fn plan_found(alloc: Global, library: &Library, unit: Name) -> Result<Option<Found>, AllocError> {
    if !is_system(library, &unit) {
        return Ok(None);
    }
    Ok(Some(Found::Deploy(plan(alloc, library, unit)?)))
}

impl Trial for Built {
    type Setting = (Which, &'static str);

    fn new(alloc: Global, setting: (Which, &'static str)) -> Result<Built, Fail> {
        let (which, texts) = setting;
        Ok(Built {
            which,
            library: library_of(alloc, texts)?,
            unit: Name::read("Y")?,
            found: None,
        })
    }

    fn call(&mut self, alloc: Global) -> bool {
        let found = match self.which {
            Which::Net => net_found(alloc, &self.library, self.unit),
            Which::Place => placed_found(alloc, &self.library, self.unit),
            Which::Plan => plan_found(alloc, &self.library, self.unit),
        };
        match found {
            Ok(found) => {
                self.found = found;
                true
            }
            Err(_) => false,
        }
    }

    fn told(&self, alloc: Global) -> Result<String, Fail> {
        match &self.found {
            Some(Found::Net(net)) => net_told(alloc, net),
            Some(Found::Placed(placed)) => placed_told(alloc, placed),
            Some(Found::Deploy(deploy)) => deploy_told(alloc, deploy),
            None => Ok(String::from_str(alloc, "none")?),
        }
    }
}

/// What a library holds, and its texts.
const LIBRARIES: &[(&str, &str)] = &[
    (" of a system", MAPPED),
    (" with misplaced blocks", MISPLACED),
    (" of types that hold each other", RECURSIVE),
    (" of an absent type", BLOCKED),
];

#[test]
fn built_of_units(rt: HostRuntime) -> Result<(), Fail> {
    let alloc: Global = rt.alloc();
    for (about, texts) in LIBRARIES {
        try_call::<Built>(&rt, alloc, "net", about, (Which::Net, *texts))?;
        try_call::<Built>(&rt, alloc, "place", about, (Which::Place, *texts))?;
        try_call::<Built>(&rt, alloc, "plan", about, (Which::Plan, *texts))?;
    }
    Ok(())
}
