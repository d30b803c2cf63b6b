//! The nets of units.
use crate::told::{name_net_told, names_told, net_told, unit_net_told};
use crate::units::{Question, compare};
use fb_flatten::{HintsOnly, Net, NoHints, all_far, compute, has_net};
use fb_library::Library;
use fb_tree::text::Name;
use std::alloc::{AllocError, Global};
use std::test::Fail;

// Rows on one unit are on all that it rests on, its net, and the units whose nets are found then. Those of more words are on the net of a
// unit if the net of another is kept.
pub const NETS: &str = r#"
== a border with two inner targets
FUNCTION_BLOCK B EVENT_INPUT I; END_EVENT EVENT_OUTPUT O; END_EVENT END_FUNCTION_BLOCK
SUBAPPLICATION S EVENT_INPUT I; END_EVENT FBS F:B; G:B; END_FBS EVENT_CONNECTIONS I TO G.I; I TO F.I; F.O TO G.I; END_CONNECTIONS END_SUBAPPLICATION
SUBAPPLICATION T FBS K:B; END_FBS SUBAPPS X:S; END_SUBAPPS EVENT_CONNECTIONS K.O TO X.I; END_CONNECTIONS END_SUBAPPLICATION
S => B S | F:B; G:B; Event F.O TO G.I; Event I AT F.I; Event I AT G.I | S
T => B S T | K:B; X.F:B; X.G:B; Event K.O TO X.F.I; Event K.O TO X.G.I; Event X.F.O TO X.G.I | T S
T beside S => flat: K:B; X.F:B; X.G:B; Event K.O TO X.F.I; Event K.O TO X.G.I; Event X.F.O TO X.G.I
// its own
S beside S => flat: F:B; G:B; Event F.O TO G.I; Event I AT F.I; Event I AT G.I

== an adapter through a subapplication
ADAPTER A EVENT_INPUT R; END_EVENT EVENT_OUTPUT Q; END_EVENT END_ADAPTER
FUNCTION_BLOCK P PLUGS X:A; END_PLUGS END_FUNCTION_BLOCK
FUNCTION_BLOCK K SOCKETS Y:A; END_SOCKETS END_FUNCTION_BLOCK
SUBAPPLICATION T PLUGS Z:A; END_PLUGS FBS F:P; END_FBS ADAPTER_CONNECTIONS F.X TO Z; END_CONNECTIONS END_SUBAPPLICATION
SUBAPPLICATION S FBS G:K; END_FBS SUBAPPS H:T; END_SUBAPPS ADAPTER_CONNECTIONS H.Z TO G.Y; END_CONNECTIONS END_SUBAPPLICATION
S => A K P S T | G:K; H.F:P; Event G.Y.R TO H.F.X.R; Event H.F.X.Q TO G.Y.Q | S T
S beside T => flat: G:K; H.F:P; Event G.Y.R TO H.F.X.R; Event H.F.X.Q TO G.Y.Q

== two applications
FUNCTION_BLOCK B EVENT_INPUT I; END_EVENT EVENT_OUTPUT O; END_EVENT END_FUNCTION_BLOCK
SUBAPPLICATION C EVENT_INPUT I; END_EVENT FBS F:B; END_FBS EVENT_CONNECTIONS I TO F.I; END_CONNECTIONS END_SUBAPPLICATION
SYSTEM Z APPLICATION A2 FBS F:B; END_FBS END_APPLICATION APPLICATION A1 FBS K:B; END_FBS SUBAPPS G:C; END_SUBAPPS EVENT_CONNECTIONS K.O TO G.I; END_CONNECTIONS END_APPLICATION END_SYSTEM
Z => B C Z | A2.F:B; A1.K:B; A1.G.F:B; Event A1.K.O TO A1.G.F.I | Z C
Z beside C => flat: A2.F:B; A1.K:B; A1.G.F:B; Event A1.K.O TO A1.G.F.I
Z beside Z => flat: A2.F:B; A1.K:B; A1.G.F:B; Event A1.K.O TO A1.G.F.I

== NO is absent, and BAD has a fault
FUNCTION_BLOCK B EVENT_INPUT I; END_EVENT EVENT_OUTPUT O; END_EVENT END_FUNCTION_BLOCK
SUBAPPLICATION S FBS F:NO; G:B; END_FBS SUBAPPS H:BAD; END_SUBAPPS END_SUBAPPLICATION
SUBAPPLICATION BAD FBS F:B; F:B; END_FBS END_SUBAPPLICATION
S => B BAD NO S | blocked BAD NO S | S
S beside BAD => blocked: blocked BAD NO S
S beside S => blocked: blocked BAD NO S

== two blocks that hold each other
SUBAPPLICATION S FBS F:M; END_FBS END_SUBAPPLICATION
FUNCTION_BLOCK M FBS F:N; END_FBS END_FUNCTION_BLOCK
FUNCTION_BLOCK N FBS F:M; END_FBS END_FUNCTION_BLOCK
S => M N S | recursive M N | S
M => M N | no net |
S beside S => recursive: recursive M N
"#;

/// Adds a unit, whose net this is.
fn say_unit(
    alloc: Global,
    library: &Library,
    told: &mut String,
    unit: Name,
    net: &Net,
) -> Result<(), Fail> {
    let found = net_told(alloc, net)?;
    let own = name_net_told(alloc, library, unit)?;
    if found.as_str() != own.as_str() {
        return Err(format!(in alloc; "{unit}: {found}, and alone: {own}")?.into());
    }
    Ok(write!(told, " {unit}")?)
}

/// Adds a unit that has a net, and those whose nets are composed on the way.
fn say_computed(
    alloc: Global,
    library: &Library,
    told: &mut String,
    unit: Name,
) -> Result<(), Fail> {
    if !has_net(library, &unit) {
        return Ok(());
    }
    let known = HintsOnly { hints: &NoHints };
    let computed = compute(alloc, library, unit, &known)?;
    say_unit(alloc, library, told, unit, &computed.net)?;
    for it in computed.inner.as_slice() {
        say_unit(alloc, library, told, it.unit, &it.net)?;
    }
    Ok(())
}

struct Nets;

impl Question for Nets {
    fn asks(asked: &str) -> bool {
        !asked.contains(' ')
    }

    fn answer(alloc: Global, library: &Library, asked: &str) -> Result<String, Fail> {
        let unit = Name::read(asked)?;
        let mut told = names_told(alloc, all_far(alloc, library, unit)?.as_slice())?;
        write!(told, " | {} |", name_net_told(alloc, library, unit)?)?;
        say_computed(alloc, library, &mut told, unit)?;
        Ok(told)
    }
}

#[test]
fn units_have_their_nets(rt: HostRuntime) -> Result<(), Fail> {
    compare::<Nets>(&rt, rt.alloc(), NETS)
}

const FIRST: &str = r#"
== a chain
FUNCTION_BLOCK B EVENT_INPUT I; END_EVENT EVENT_OUTPUT O; END_EVENT END_FUNCTION_BLOCK
SUBAPPLICATION S1 FBS X:B; Y:B; END_FBS END_SUBAPPLICATION
"#;

/// Thirteen subapplications, each of which holds the one before it twice, and these rows on them.
pub fn chain(alloc: Global, rows: &str) -> Result<String, AllocError> {
    let mut table = String::from_str(alloc, FIRST)?;
    for number in 1..13u32 {
        let outer = number + 1;
        writeln!(
            table,
            "SUBAPPLICATION S{outer} SUBAPPS X:S{number}; Y:S{number}; END_SUBAPPS END_SUBAPPLICATION"
        )?;
    }
    table.push_str(rows)?;
    Ok(table)
}

struct NetsOnly;

impl Question for NetsOnly {
    fn asks(asked: &str) -> bool {
        !asked.contains(' ')
    }

    fn answer(alloc: Global, library: &Library, asked: &str) -> Result<String, Fail> {
        unit_net_told(alloc, library, asked)
    }
}

// S13 holds 2 + 4 + .. + 8192 instances
const CHAINED: &str = r#"
S2 => X.X:B; X.Y:B; Y.X:B; Y.Y:B
S13 => too large
"#;

#[test]
fn a_chain_that_doubles(rt: HostRuntime) -> Result<(), Fail> {
    let table = chain(rt.alloc(), CHAINED)?;
    compare::<NetsOnly>(&rt, rt.alloc(), table.as_str())
}

pub const VALUES: &str = r#"
== W has an input of an absent type and one of a structure, which has a field of an absent type; a structure is no type of instances
TYPE S : STRUCT F:INT; G:U; END_STRUCT; END_TYPE
FUNCTION_BLOCK W VAR_INPUT X:LEVEL; Y:S; END_VAR END_FUNCTION_BLOCK
SUBAPPLICATION SW FBS F:W; END_FBS END_SUBAPPLICATION
SUBAPPLICATION OF_S FBS F:S; END_FBS END_SUBAPPLICATION
SUBAPPLICATION IN_S SUBAPPS F:S; END_SUBAPPS END_SUBAPPLICATION
SUBAPPLICATION OUTER SUBAPPS X:SW; Y:OF_S; END_SUBAPPS END_SUBAPPLICATION
SYSTEM Z APPLICATION A FBS F:W; END_FBS END_APPLICATION END_SYSTEM
S => no net
W => no net
SW => F:W
OF_S => blocked OF_S
IN_S => blocked IN_S
OUTER => blocked OF_S
Z => A.F:W
OUTER beside SW => flat: blocked OF_S
OUTER beside OF_S => blocked: blocked OF_S
SW beside SW => flat: F:W
"#;

#[test]
fn structures_have_no_nets(rt: HostRuntime) -> Result<(), Fail> {
    compare::<NetsOnly>(&rt, rt.alloc(), VALUES)
}
