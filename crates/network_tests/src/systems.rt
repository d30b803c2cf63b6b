//! Placements and plans of systems.
use crate::told::{placement_told, plan_in, plan_told, plans_told};
use crate::units::{Question, compare, library_of, lines_of};
use fb_deploy::Plan;
use fb_library::Library;
use std::alloc::Global;
use std::process::Abort;
use std::test::Fail;

// The system Y with one mapping, and what it rests on.
const PLANT: &str = r#"
FUNCTION_BLOCK TN EVENT_INPUT I; END_EVENT EVENT_OUTPUT O; END_EVENT VAR_INPUT DT:TIME; END_VAR END_FUNCTION_BLOCK
SUBAPPLICATION SA FBS F:TN; G:TN(DT:=T#250ms); H:TN; END_FBS EVENT_CONNECTIONS F.O TO G.I; G.O TO H.I; END_CONNECTIONS END_SUBAPPLICATION
SYSTEM Y APPLICATION APP SUBAPPS SUB:SA; END_SUBAPPS END_APPLICATION DEVICE D:DT RESOURCE R1:RT END_RESOURCE RESOURCE R2:RT END_RESOURCE END_DEVICE MAPPINGS APP ON D.R1; END_MAPPINGS END_SYSTEM
"#;

/// A part of what is made of a system.
fn told(alloc: Global, part: &str, library: &Library, system: &str) -> Result<String, Fail> {
    match part {
        "placement" => placement_told(alloc, library, system),
        "plan" => plan_told(alloc, library, system),
        _ => Err(Fail::from("no such part")),
    }
}

// Parts of what is made of Y with other mappings.
const MAPPED: &str = r#"
// the longest path counts
placement: APP.SUB ON D.R1; APP.SUB.F ON D.R2; => APP.SUB.F ON D.R2; APP.SUB.G ON D.R1; APP.SUB.H ON D.R1; Event APP.SUB.F.O TO APP.SUB.G.I
placement: app.sub.g ON D.R2; APP ON D.R1;
    => APP.SUB.F ON D.R1; APP.SUB.G ON D.R2; APP.SUB.H ON D.R1; Event APP.SUB.F.O TO APP.SUB.G.I; Event APP.SUB.G.O TO APP.SUB.H.I
placement: APP ON D.R1; => APP.SUB.F ON D.R1; APP.SUB.G ON D.R1; APP.SUB.H ON D.R1
// blocks and mappings do not meet
placement: APP.Z ON D.R1; APP.SUB.F ON D.R2; => UNMAPPED APP.SUB.G; UNMAPPED APP.SUB.H; NO_SUCH_BLOCK APP.Z
// a port, a name inside a block, another application, in the order of their bytes
placement: APP ON D.R1; NO ON D.R1; APP.SUB.F.O ON D.R1; AP ON D.R1; APP.SU ON D.R1; APP.SUB.F.X.Y ON D.R2;
    => NO_SUCH_BLOCK AP; NO_SUCH_BLOCK APP.SU; NO_SUCH_BLOCK APP.SUB.F.O; NO_SUCH_BLOCK APP.SUB.F.X.Y; NO_SUCH_BLOCK NO

plan: APP.SUB ON D.R1; APP.SUB.F ON D.R2;
    => Event APP.SUB.F.O TO APP.SUB.G.I; RESOURCE D.R1; CREATE FB APP.SUB.G TN; CREATE FB APP.SUB.H TN; WRITE APP.SUB.G.DT T#250ms; CREATE CONNECTION APP.SUB.G.O APP.SUB.H.I; START D.R1; RESOURCE D.R2; CREATE FB APP.SUB.F TN; START D.R2
// a resource without blocks is started
plan: APP ON D.R2;
    => RESOURCE D.R1; START D.R1; RESOURCE D.R2; CREATE FB APP.SUB.F TN; CREATE FB APP.SUB.G TN; CREATE FB APP.SUB.H TN; WRITE APP.SUB.G.DT T#250ms; CREATE CONNECTION APP.SUB.F.O APP.SUB.G.I; CREATE CONNECTION APP.SUB.G.O APP.SUB.H.I; START D.R2
// blocks and mappings do not meet
plan: APP.Z ON D.R1; APP.SUB.F ON D.R2; => UNMAPPED APP.SUB.G; UNMAPPED APP.SUB.H; NO_SUCH_BLOCK APP.Z
"#;

/// Compares a part of what is made of Y by each row.
fn compare_mapped(rt: &impl Abort, alloc: Global, rows: &str) -> Result<(), Fail> {
    for row in lines_of(alloc, rows)?.as_str().split('\n') {
        if !(row.is_empty() || row.starts_with("// ")) {
            let (asked, expected) = row.split_once(" => ").ok_or("no answer")?;
            let (part, mappings) = asked.split_once(": ").ok_or("no part")?;
            let units = PLANT.replace(alloc, "APP ON D.R1;", mappings)?;
            let found = told(alloc, part, &library_of(alloc, units.as_str())?, "Y")?;
            assert_eq!(rt; found.as_str(), expected, "{asked}");
        }
    }
    Ok(())
}

#[test]
fn mappings_place_blocks(rt: HostRuntime) -> Result<(), Fail> {
    compare_mapped(&rt, rt.alloc(), MAPPED)
}

// Libraries, of which some have all units of the plant.
const SYSTEMS: &str = r#"
== a system alone
SYSTEM Y APPLICATION APP SUBAPPS SUB:SA; END_SUBAPPS END_APPLICATION DEVICE D:DT RESOURCE R1:RT END_RESOURCE RESOURCE R2:RT END_RESOURCE END_DEVICE MAPPINGS APP ON D.R1; END_MAPPINGS END_SYSTEM
placement: Y => blocked SA Y
plan: Y => blocked SA Y

== a subapplication alone
SUBAPPLICATION SA FBS F:TN; G:TN(DT:=T#250ms); H:TN; END_FBS EVENT_CONNECTIONS F.O TO G.I; G.O TO H.I; END_CONNECTIONS END_SUBAPPLICATION
plan: SA => no system

== the inside of a composite block and a plug are not placed
FUNCTION_BLOCK C FBS F:TN; END_FBS END_FUNCTION_BLOCK
SUBAPPLICATION E END_SUBAPPLICATION
SUBAPPLICATION K PLUGS P:AD; END_PLUGS FBS F:C; END_FBS SUBAPPS N:E; END_SUBAPPS END_SUBAPPLICATION
ADAPTER AD END_ADAPTER
FUNCTION_BLOCK TN EVENT_INPUT I; END_EVENT EVENT_OUTPUT O; END_EVENT VAR_INPUT DT:TIME; END_VAR END_FUNCTION_BLOCK
SYSTEM Z APPLICATION A FBS B:C; END_FBS SUBAPPS S:K; END_SUBAPPS END_APPLICATION APPLICATION V END_APPLICATION DEVICE D:DT RESOURCE R:RT END_RESOURCE END_DEVICE MAPPINGS A ON D.R; V ON D.R; A.S.N ON D.R; A.B.F ON D.R; A.S.P ON D.R; A.S.F.F ON D.R; END_MAPPINGS END_SYSTEM
placement: Z => NO_SUCH_BLOCK A.B.F; NO_SUCH_BLOCK A.S.F.F; NO_SUCH_BLOCK A.S.P

== two systems, which have nothing of each other
PLANT
SYSTEM Z APPLICATION A FBS B:TN; END_FBS END_APPLICATION DEVICE E:DT RESOURCE R:RT END_RESOURCE END_DEVICE MAPPINGS A.B ON E.R; END_MAPPINGS END_SYSTEM
placement: Z => A.B ON E.R
placement: SA => no system
placement: Y => APP.SUB.F ON D.R1; APP.SUB.G ON D.R1; APP.SUB.H ON D.R1

== constants are printed as they are written
FUNCTION_BLOCK B VAR_INPUT A:INT; C:BOOL; D:ANY; E:ARRAY [0..3] OF INT; F:STRING; END_VAR END_FUNCTION_BLOCK
SYSTEM Z APPLICATION A FBS X10:B; X1:B(F:='a  (* b *)', d:= name, A:= - (* minus *) 1_0, c := true, E:=[ 1 , 2, // three\n 16#0F ]); X:B; END_FBS END_APPLICATION DEVICE D:DT END_DEVICE DEVICE E:DT RESOURCE R:RT(P:=1) END_RESOURCE END_DEVICE MAPPINGS A ON E.R; END_MAPPINGS END_SYSTEM
plan: Z
    => RESOURCE E.R; CREATE FB A.X B; CREATE FB A.X1 B; CREATE FB A.X10 B; WRITE A.X1.A -1_0; WRITE A.X1.C true; WRITE A.X1.D name; WRITE A.X1.E [1,2,16#0F]; WRITE A.X1.F 'a  (* b *)'; START E.R

== a system with two applications beside another system
PLANT
SYSTEM Z APPLICATION V FBS B:TN(DT:=T#1s); END_FBS END_APPLICATION APPLICATION A FBS B:TN(DT:=T#2s); END_FBS END_APPLICATION DEVICE E:DT RESOURCE R:RT END_RESOURCE RESOURCE Q:RT END_RESOURCE END_DEVICE MAPPINGS V ON E.Q; A ON E.Q; END_MAPPINGS END_SYSTEM
plan: Z => RESOURCE E.R; START E.R; RESOURCE E.Q; CREATE FB A.B TN; CREATE FB V.B TN; WRITE A.B.DT T#2s; WRITE V.B.DT T#1s; START E.Q
"#;

struct Made;

impl Question for Made {
    fn answer(alloc: Global, library: &Library, asked: &str) -> Result<String, Fail> {
        let (part, system) = asked.split_once(": ").ok_or("no part")?;
        told(alloc, part, library, system)
    }
}

#[test]
fn systems_have_their_placements_and_plans(rt: HostRuntime) -> Result<(), Fail> {
    let systems = SYSTEMS.replace(rt.alloc(), "PLANT\n", PLANT)?;
    compare::<Made>(&rt, rt.alloc(), systems.as_str())
}

// Words of the texts, others in their place, and what Y's plan is then. The last ones leave out SA.
const CHANGES: &str = r#"
SA|SA => same
SA|SB => same
T#250ms|T#251ms => different
G.O TO H.I|F.O TO H.I => different
APP ON D.R1;|APP ON D.R2; => different
APP ON D.R1;|APP ON D.R1; APP.SUB.H ON D.R2; => different
SUBAPPLICATION|// SUBAPPLICATION => no plans
"#;

/// The plan of the system Y of these units.
fn plan_of_y(alloc: Global, units: &str) -> Result<Option<Plan>, Fail> {
    plan_in(alloc, &library_of(alloc, units)?, "Y")
}

#[test]
fn plans_are_told_apart(rt: HostRuntime) -> Result<(), Fail> {
    let wanted = plan_of_y(rt.alloc(), PLANT)?;
    for row in CHANGES.split('\n') {
        if !row.is_empty() {
            let (change, expected) = row.split_once(" => ").ok_or("no answer")?;
            let (old, new) = change.split_once('|').ok_or("no change")?;
            let units = PLANT.replace(rt.alloc(), old, new)?;
            let found = plan_of_y(rt.alloc(), units.as_str())?;
            assert_eq!(rt; plans_told(&wanted, &found), expected, "{change}");
        }
    }
    Ok(())
}
