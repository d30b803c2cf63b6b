//! Tokens, texts of units, mentions and indexes, of which each allocation is refused in turn.
use crate::index::{nothing, parts};
use crate::told::{Tell, say_names};
use fb_index::Index;
use fb_library::parse::{Body, ReadFault, Source};
use fb_text::{Name, Token, TokenFault, tokens};
use fb_tree::{Mentions, mentions, mentions_of};
use refusing::{Trial, try_call};
use std::alloc::{AllocError, Global};
use std::sync::Arc;
use std::test::Fail;

// A block with a network and a chart.
const BLOCK: &str =
    "FUNCTION_BLOCK K EVENT_INPUT E WITH X; END_EVENT VAR_INPUT X:INT; B:ARRAY[0..9] OF BOOL; END_VAR FBS F:TN; G:TM(DT:=T#250ms); END_FBS EVENT_CONNECTIONS F.O TO G.I; END_CONNECTIONS EC_STATES S0; S1: G; END_STATES EC_TRANSITIONS S0 TO S1 := E[X]; S1 TO S0 := 1; END_TRANSITIONS ALGORITHM G IN ST: IF B[1 + X] THEN X := -2 * (X + 3); END_IF; END_ALGORITHM END_FUNCTION_BLOCK";

const STRUCTURE: &str =
    "TYPE S : STRUCT F:INT; A,B:ARRAY[0..3] OF T := [1, 2]; G:U; END_STRUCT; END_TYPE";

static TEXTS: [(&str, &str); 5] = [
    (" of a block", BLOCK),
    (
        " of a system",
        "SYSTEM Y APPLICATION APP SUBAPPS SUB:SA; END_SUBAPPS END_APPLICATION DEVICE D:DT RESOURCE R1:RT END_RESOURCE END_DEVICE MAPPINGS APP ON D.R1; END_MAPPINGS END_SYSTEM",
    ),
    (" of a structure", STRUCTURE),
    // references with several names, which have subscripts
    (
        " of an algorithm",
        "FUNCTION_BLOCK V VAR X:S; Y:T; END_VAR ALGORITHM P IN ST: X.F.G := X[1, 2].A[Y.B + 1].C; END_ALGORITHM END_FUNCTION_BLOCK",
    ),
    (
        " of a broken text",
        "SUBAPPLICATION S FBS F:TN; G TM; END_FBS END_SUBAPPLICATION",
    ),
];

/// What is made of a text.
#[derive(Clone, Copy)]
enum Made {
    Tokens,
    Source,
    /// The types of parts that it mentions.
    Parts,
    /// All types that it mentions.
    Mentions,
}

#[derive(Drop)]
enum Found {
    Tokens(Result<Vec<Token>, TokenFault>),
    Source(Result<Arc<Source>, ReadFault>),
    Parts(Result<Vec<Name>, AllocError>),
    Mentions(Result<Mentions, AllocError>),
}

/// A text, and what was made of it.
#[derive(Drop)]
struct Text {
    made: Made,
    unit: Name,
    source: Arc<Source>,
    found: Option<Found>,
}

impl Trial for Text {
    type Setting = (Made, &'static str);

    fn new(alloc: Global, (made, text): (Made, &'static str)) -> Result<Text, Fail> {
        let unit = Name::read("U")?;
        Ok(Text {
            made,
            unit,
            source: Source::read(alloc, unit, text)?,
            found: None,
        })
    }

    fn call(&mut self, alloc: Global) -> bool {
        let found = match (self.made, self.source.body()) {
            (Made::Tokens, _) => Found::Tokens(tokens(alloc, self.source.text())),
            (Made::Source, _) => Found::Source(Source::read(alloc, self.unit, self.source.text())),
            (Made::Parts, Body::Tree(decl)) => Found::Parts(mentions(alloc, decl)),
            (Made::Mentions, Body::Tree(decl)) => Found::Mentions(mentions_of(alloc, decl)),
            (_, Body::Broken(_)) => return true,
        };
        let is_served = !matches!(
            &found,
            Found::Tokens(Err(TokenFault::Memory))
                | Found::Source(Err(ReadFault::Memory))
                | Found::Parts(Err(_))
                | Found::Mentions(Err(_))
        );
        if is_served {
            self.found = Some(found);
        }
        is_served
    }

    fn told(&self, alloc: Global) -> Result<String, Fail> {
        let mut told = String::new(alloc);
        match &self.found {
            Some(Found::Tokens(found)) => found.tell(&mut told)?,
            Some(Found::Source(Ok(source))) => source.as_ref().tell(&mut told)?,
            Some(Found::Parts(Ok(names))) => say_names(&mut told, names)?,
            Some(Found::Mentions(Ok(found))) => {
                say_names(&mut told, &found.parts)?;
                say_names(&mut told, &found.of_values)?;
            }
            _ => {}
        }
        Ok(told)
    }
}

/// A call of an index.
#[derive(Clone, Copy)]
enum Which {
    /// The first unit of an index is indexed.
    Replace,
    /// The unit is removed again.
    Remove,
    Copy,
    NearOf,
    FarOf,
}

/// An index of one unit that mentions others, and what it has answered.
#[derive(Drop)]
struct Indexed {
    which: Which,
    names: [Name; 3],
    mentions: Mentions,
    index: Index,
    copy: Option<Index>,
    found: Option<Vec<Name>>,
}

// What is near and far of each of these names.
fn say_index(
    alloc: Global,
    told: &mut String,
    index: &Index,
    names: &[Name],
) -> Result<(), AllocError> {
    for name in names {
        say_names(told, &index.near_of(alloc, &[*name])?)?;
        say_names(told, &index.far_of(alloc, &[*name])?)?;
    }
    Ok(())
}

// A unit in a new index, or a new index as it is.
fn index_anew(alloc: Global, index: &mut Index, unit: Name, mentioned: &Mentions) -> bool {
    let mut new = Index::new(alloc);
    let is_served = new.replace(alloc, unit, &nothing(alloc), mentioned).is_ok();
    *index = new;
    is_served
}

// A new index after a unit was put and removed again. If that fails, the index has the unit.
fn remove_anew(alloc: Global, index: &mut Index, unit: Name, mentioned: &Mentions) -> bool {
    let mut new = Index::new(alloc);
    if new
        .replace(alloc, unit, &nothing(alloc), mentioned)
        .is_err()
    {
        return false;
    }
    let is_served = new.remove(alloc, &unit, mentioned).is_ok();
    *index = new;
    is_served
}

// Keeps what was found, if there was memory for it.
fn kept<T: Drop>(slot: &mut Option<T>, found: Result<T, AllocError>) -> bool {
    match found {
        Ok(found) => {
            *slot = Some(found);
            true
        }
        Err(_) => false,
    }
}

impl Trial for Indexed {
    type Setting = Which;

    fn new(alloc: Global, which: Which) -> Result<Indexed, Fail> {
        let names = [Name::read("A")?, Name::read("B")?, Name::read("C")?];
        let [a, b, c] = names;
        let mentions = parts(alloc, &[b, c])?;
        let mut index = Index::new(alloc);
        if let Which::Replace = which {
            // It is new.
        } else if !index_anew(alloc, &mut index, a, &mentions) {
            return Err(Fail::from("no index"));
        }
        Ok(Indexed {
            which,
            names,
            mentions,
            index,
            copy: None,
            found: None,
        })
    }

    fn call(&mut self, alloc: Global) -> bool {
        let [a, b, c] = self.names;
        match self.which {
            Which::Replace => index_anew(alloc, &mut self.index, a, &self.mentions),
            Which::Remove => remove_anew(alloc, &mut self.index, a, &self.mentions),
            Which::Copy => kept(&mut self.copy, self.index.copy()),
            Which::NearOf => kept(&mut self.found, self.index.near_of(alloc, &[b, c])),
            Which::FarOf => kept(&mut self.found, self.index.far_of(alloc, &[b, c])),
        }
    }

    fn told(&self, alloc: Global) -> Result<String, Fail> {
        let mut told = String::new(alloc);
        say_index(alloc, &mut told, &self.index, &self.names)?;
        if let Some(copy) = &self.copy {
            say_index(alloc, &mut told, copy, &self.names)?;
        }
        if let Some(found) = &self.found {
            say_names(&mut told, found)?;
        }
        Ok(told)
    }
}

#[test]
fn texts(rt: HostRuntime) -> Result<(), Fail> {
    let alloc: Global = rt.alloc();
    for (about, text) in TEXTS {
        try_call::<Text>(&rt, alloc, "tokens", about, (Made::Tokens, text))?;
        try_call::<Text>(&rt, alloc, "Source::read", about, (Made::Source, text))?;
    }
    try_call::<Text>(&rt, alloc, "mentions", "", (Made::Parts, BLOCK))?;
    for (about, text) in [(" of a block", BLOCK), (" of a structure", STRUCTURE)] {
        try_call::<Text>(&rt, alloc, "mentions_of", about, (Made::Mentions, text))?;
    }
    Ok(())
}

#[test]
fn indexes(rt: HostRuntime) -> Result<(), Fail> {
    let alloc: Global = rt.alloc();
    try_call::<Indexed>(&rt, alloc, "Index::replace", "", Which::Replace)?;
    try_call::<Indexed>(&rt, alloc, "Index::remove", "", Which::Remove)?;
    try_call::<Indexed>(&rt, alloc, "Index::copy", "", Which::Copy)?;
    try_call::<Indexed>(&rt, alloc, "Index::near_of", "", Which::NearOf)?;
    try_call::<Indexed>(&rt, alloc, "Index::far_of", "", Which::FarOf)
}
