//! Libraries, ports and faults, of which each allocation is refused in turn.
use crate::checkers::{Checker, found_by};
use crate::interfaces::interface_told;
use crate::libraries::RECURSIVE;
use crate::plant::{all_told, library, plant_with, put, say_names};
use fb_faults::faults;
use fb_iface::Fault;
use fb_library::parse::Source;
use fb_library::{Change, Library, far, near};
use fb_tree::text::Name;
use refusing::{Trial, try_call};
use std::alloc::{AllocError, Global};
use std::sync::Arc;
use std::test::Fail;

// It has faults of each checker, and a structure as a type of values.
const TEXT: &str =
    "FUNCTION_BLOCK U EVENT_INPUT E; END_EVENT VAR X:INT; Y:REC; END_VAR FBS F:T; G:NO; END_FBS EVENT_CONNECTIONS E TO F.N; END_CONNECTIONS EC_STATES S: -> O; END_STATES EC_TRANSITIONS S TO Z := E[X]; END_TRANSITIONS ALGORITHM H IN ST: V := 1; END_ALGORITHM PLUGS P:AD; END_PLUGS END_FUNCTION_BLOCK";

// It carries itself.
const STRUCTURE: &str = "TYPE U : STRUCT X:REC; Y:U; END_STRUCT END_TYPE";

// Keeps what was found, if there was memory for it.
fn kept<T: Drop>(slot: &mut Option<T>, found: Result<T, AllocError>) -> bool {
    match found {
        Ok(found) => {
            *slot = Some(found);
            true
        }
        Err(_) => false,
    }
}

/// The faults of a text that a checker finds, or all.
#[derive(Drop)]
struct Judged {
    checker: Option<Checker>,
    text: &'static str,
    library: Library,
    unit: Name,
    found: Option<Vec<Fault>>,
}

impl Trial for Judged {
    type Setting = (Option<Checker>, &'static str);

    fn new(alloc: Global, setting: (Option<Checker>, &'static str)) -> Result<Judged, Fail> {
        let (checker, text) = setting;
        Ok(Judged {
            checker,
            text,
            library: plant_with(alloc, text)?,
            unit: Name::read("U")?,
            found: None,
        })
    }

    fn call(&mut self, alloc: Global) -> bool {
        let found = match self.checker {
            Some(checker) => found_by(checker, alloc, &self.library, &self.unit),
            None => faults(alloc, &self.library, &self.unit),
        };
        kept(&mut self.found, found)
    }

    fn told(&self, alloc: Global) -> Result<String, Fail> {
        match &self.found {
            Some(found) => Ok(all_told(alloc, self.text, found)?),
            None => Ok(String::new(alloc)),
        }
    }
}

#[test]
fn faults_of_units(rt: HostRuntime) -> Result<(), Fail> {
    let alloc: Global = rt.alloc();
    let [declarations, expressions] = [Checker::Declarations, Checker::Expressions];
    let [charts, networks] = [Checker::Charts, Checker::Networks];
    try_call::<Judged>(&rt, alloc, "iface_faults", "", (Some(declarations), TEXT))?;
    try_call::<Judged>(&rt, alloc, "expr_faults", "", (Some(expressions), TEXT))?;
    try_call::<Judged>(&rt, alloc, "ecc_faults", "", (Some(charts), TEXT))?;
    try_call::<Judged>(&rt, alloc, "net_faults", "", (Some(networks), TEXT))?;
    try_call::<Judged>(&rt, alloc, "faults", "", (None, TEXT))?;
    try_call::<Judged>(&rt, alloc, "faults", " of a structure", (None, STRUCTURE))
}

/// The ports of a text.
#[derive(Drop)]
struct Interfaced {
    source: Arc<Source>,
    found: Option<String>,
}

impl Trial for Interfaced {
    type Setting = ();

    fn new(alloc: Global, _setting: ()) -> Result<Interfaced, Fail> {
        Ok(Interfaced {
            source: Source::read(alloc, Name::read("U")?, TEXT)?,
            found: None,
        })
    }

    fn call(&mut self, alloc: Global) -> bool {
        kept(&mut self.found, interface_told(alloc, self.source.as_ref()))
    }

    fn told(&self, alloc: Global) -> Result<String, Fail> {
        match &self.found {
            Some(told) => Ok(told.clone()?),
            None => Ok(String::new(alloc)),
        }
    }
}

#[test]
fn ports_of_units(rt: HostRuntime) -> Result<(), Fail> {
    try_call::<Interfaced>(&rt, rt.alloc(), "interface", "", ())
}

/// A call of a library.
#[derive(Clone, Copy)]
enum Which {
    Apply,
    Edited,
    Copy,
    Names,
    Near,
    Far,
}

/// A library, a change of it, and what it has answered.
#[derive(Drop)]
struct Libraries {
    which: Which,
    library: Library,
    change: [Change; 1],
    unit: Name,
    other: Option<Library>,
    names: Option<Vec<Name>>,
}

// How many units there are, and their names with their revisions and texts.
fn say_units(told: &mut String, library: &Library) -> Result<(), AllocError> {
    write!(told, "\n{}:", library.len())?;
    for place in 0..library.len() {
        if let Some(name) = library.name_at(place) {
            write!(told, " {name} {}", library.revision(&name))?;
            if let Some(source) = library.source(&name) {
                told.push_str(source.text())?;
            }
        }
    }
    Ok(())
}

impl Trial for Libraries {
    type Setting = Which;

    fn new(alloc: Global, which: Which) -> Result<Libraries, Fail> {
        Ok(Libraries {
            which,
            library: library(alloc, RECURSIVE)?,
            change: [put(alloc, "C", 0, "FUNCTION_BLOCK C END_FUNCTION_BLOCK")?],
            unit: Name::read("S")?,
            other: None,
            names: None,
        })
    }

    fn call(&mut self, alloc: Global) -> bool {
        match self.which {
            Which::Apply => self.library.apply(2, &self.change).is_ok(),
            Which::Edited => kept(&mut self.other, self.library.edited(2, &self.change)),
            Which::Copy => kept(&mut self.other, self.library.copy()),
            Which::Names => kept(&mut self.names, self.library.names(alloc)),
            Which::Near => kept(&mut self.names, near(alloc, &self.library, self.unit)),
            Which::Far => kept(&mut self.names, far(alloc, &self.library, self.unit)),
        }
    }

    fn told(&self, alloc: Global) -> Result<String, Fail> {
        let mut told = String::new(alloc);
        say_units(&mut told, &self.library)?;
        if let Some(other) = &self.other {
            say_units(&mut told, other)?;
        }
        if let Some(names) = &self.names {
            say_names(&mut told, names)?;
        }
        Ok(told)
    }
}

#[test]
fn libraries_of_units(rt: HostRuntime) -> Result<(), Fail> {
    let alloc: Global = rt.alloc();
    try_call::<Libraries>(&rt, alloc, "Library::apply", "", Which::Apply)?;
    try_call::<Libraries>(&rt, alloc, "Library::edited", "", Which::Edited)?;
    try_call::<Libraries>(&rt, alloc, "Library::copy", "", Which::Copy)?;
    try_call::<Libraries>(&rt, alloc, "Library::names", "", Which::Names)?;
    try_call::<Libraries>(&rt, alloc, "near", "", Which::Near)?;
    try_call::<Libraries>(&rt, alloc, "far", "", Which::Far)
}
