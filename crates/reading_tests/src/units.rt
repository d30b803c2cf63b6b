//! The texts of units that are whole.
use crate::told::{names_told, say_names, words};
use fb_library::parse::{Body, Source};
use fb_text::Name;
use fb_tree::{Mentions, mentions, mentions_of};
use refusing::{lines_of, row_in};
use std::alloc::Global;
use std::process::Abort;
use std::test::Fail;

// `UNIT: TEXT`, and what the text declares.
const UNITS: &str = r#"
q: function_block a_1 EVENT_INPUT E:T WITH X,y; END_EVENT VAR_OUTPUT Z:INT; END_VAR EVENT_OUTPUT O; END_EVENT VAR_INPUT X,Y:ARRAY [0..9] OF INT; END_VAR End_Function_Block // done
    => Q is block A_1 15..18; Input E:T WITH X,Y; Output O; Output Z:Plain INT 68..71; Input X,Y:Array INT 121..140
K: FUNCTION_BLOCK K EVENT_INPUT E; END_EVENT VAR X:INT; B:BOOL; END_VAR EC_STATES S0; S1: G; END_STATES EC_TRANSITIONS S0 TO S1 := E[X]; S1 TO S2 := 1; END_TRANSITIONS ALGORITHM G IN ST: B := X + TRUE; END_ALGORITHM ALGORITHM H IN LD | 1 ( END_ALGORITHM SERVICE ? END_SERVICE END_FUNCTION_BLOCK
    => K is block K 15..16; Input E; Internal X:Plain INT 48..51; Internal B:Plain BOOL 55..59; S0; S1: G; S0 TO S1 := E & X; S1 TO S2 := 1; G IN ST 1; H IN LD 0; a chart
TP: SUBAPPLICATION TP PLUGS P:AD; END_PLUGS FBS L:PP(DT:=T#250ms); END_FBS SUBAPPS M:SB; END_SUBAPPS ADAPTER_CONNECTIONS L.P TO M.K; END_CONNECTIONS SOCKETS S:AD; END_SOCKETS SERVICE END_SERVICE END_SUBAPPLICATION
    => TP is subapplication TP 15..17; Plug P:AD; Block L:PP(DT := Typed(Other) 53..60); Subapplication M:SB; Socket S:AD; Adapter L.P TO M.K; a network
AD: ADAPTER AD EVENT_INPUT CF; END_EVENT EVENT_OUTPUT RQ; END_EVENT VAR_OUTPUT V:INT; END_VAR END_ADAPTER
    => AD is adapter AD 8..10; Input CF; Output RQ; Output V:Plain INT 77..80
Y: SYSTEM Y APPLICATION APP SUBAPPS SUB:SA; END_SUBAPPS END_APPLICATION DEVICE D:DT RESOURCE R1:RT END_RESOURCE RESOURCE R2:RT END_RESOURCE END_DEVICE MAPPINGS APP ON D.R1; APP.SUB.F ON D.R2; END_MAPPINGS END_SYSTEM
    => Y is system Y 7..8; APPLICATION APP; Subapplication SUB:SA; a network; DEVICE D:DT R1:RT R2:RT; APP ON D.R1; APP.SUB.F ON D.R2
// empty sections
_: FUNCTION_BLOCK A FBS END_FBS EC_STATES END_STATES END_FUNCTION_BLOCK => _ is block A 15..16; a network; a chart
_: FUNCTION_BLOCK A DATA_CONNECTIONS END_CONNECTIONS END_FUNCTION_BLOCK => _ is block A 15..16; a network
_: FUNCTION_BLOCK A PLUGS P:AD; END_PLUGS SOCKETS END_SOCKETS EC_TRANSITIONS END_TRANSITIONS END_FUNCTION_BLOCK => _ is block A 15..16; Plug P:AD
// each section may come again, and what it holds is appended
R: SUBAPPLICATION R FBS A:T; END_FBS SUBAPPS B:S; END_SUBAPPS DATA_CONNECTIONS A.X TO C.X; END_CONNECTIONS FBS C:T; END_FBS SUBAPPS D:S; END_SUBAPPS DATA_CONNECTIONS C.Y TO A.Y; END_CONNECTIONS SERVICE END_SERVICE SERVICE END_SERVICE END_SUBAPPLICATION
    => R is subapplication R 15..16; Block A:T; Subapplication B:S; Block C:T; Subapplication D:S; Data A.X TO C.X; Data C.Y TO A.Y; a network
L: FUNCTION_BLOCK L EC_TRANSITIONS A TO B := 1; END_TRANSITIONS EC_STATES A; END_STATES EC_TRANSITIONS B TO A := E; END_TRANSITIONS EC_STATES B; END_STATES END_FUNCTION_BLOCK
    => L is block L 15..16; A; B; A TO B := 1; B TO A := E; a chart
Z: SYSTEM Z MAPPINGS A ON D.R; END_MAPPINGS DEVICE D:T END_DEVICE APPLICATION A END_APPLICATION MAPPINGS B ON D.S; END_MAPPINGS DEVICE E:T END_DEVICE APPLICATION B END_APPLICATION END_SYSTEM
    => Z is system Z 7..8; APPLICATION A; APPLICATION B; DEVICE D:T; DEVICE E:T; A ON D.R; B ON D.S
// structures, with fields and without; their words may be in any case
S: TYPE S : STRUCT F:INT; A:ARRAY[0..3] OF INT; G:U; Q:ARRAY[0..1] OF U; END_STRUCT; END_TYPE
    => S is structure S 5..6; Field F:Plain INT 18..21; Field A:Array INT 25..43; Field G:Plain U 47..48; Field Q:Array U 52..68
U: TYPE U : STRUCT H:BOOL; N:STRING[8]; END_STRUCT END_TYPE => U is structure U 5..6; Field H:Plain BOOL 18..22; Field N:Sized STRING 26..35
S: type s : struct end_struct end_type => S is structure S 5..6
// names of the words IN, ON and ST
S: TYPE S : STRUCT IN,ON:INT; END_STRUCT END_TYPE => S is structure S 5..6; Field IN,ON:Plain INT 22..25
V: FUNCTION_BLOCK V VAR X:S; END_VAR ALGORITHM P IN ST: X.IN := X.ON; END_ALGORITHM END_FUNCTION_BLOCK
    => V is block V 15..16; Internal X:Plain S 23..24; P IN ST 1
"#;

/// Compares the text of a unit, and what it declares.
fn compare(rt: &impl Abort, alloc: Global, row: &str, expected: &str) -> Result<(), Fail> {
    let (unit, text) = row.split_once(": ").ok_or("no name")?;
    let source = Source::read(alloc, Name::read(unit)?, text)?;
    assert_eq!(rt; source.text(), text, "the text");
    assert_eq!(rt; words(alloc, source.as_ref())?.as_str(), expected, "{text}");
    Ok(())
}

#[test]
fn texts_of_units(rt: HostRuntime) -> Result<(), Fail> {
    for line in lines_of(rt.alloc(), UNITS)?.as_str().split('\n') {
        if let Some((row, expected)) = row_in(line) {
            compare(&rt, rt.alloc(), row, expected)?;
        }
    }
    Ok(())
}

// Texts with the types that they mention: those of instances, plugs and sockets, and those of variables and fields that are not elementary.
const MENTIONS: &str = r#"
SUBAPPLICATION SA FBS F:TN; G:TN(DT:=T#250ms); H:TN; END_FBS EVENT_CONNECTIONS F.O TO G.I; G.O TO H.I; END_CONNECTIONS END_SUBAPPLICATION => TN |
SYSTEM Y APPLICATION APP SUBAPPS SUB:SA; END_SUBAPPS END_APPLICATION DEVICE D:DT RESOURCE R1:RT END_RESOURCE RESOURCE R2:RT END_RESOURCE END_DEVICE MAPPINGS APP.SUB ON D.R1; APP.SUB.F ON D.R2; END_MAPPINGS END_SYSTEM
    => SA |
FUNCTION_BLOCK B SOCKETS S:Z; END_SOCKETS FBS F:Y; G:Z; END_FBS PLUGS P:X; END_PLUGS END_FUNCTION_BLOCK => X Y Z |
TYPE S : STRUCT F:INT; G:U; A:ARRAY[0..1] OF Z; B:ARRAY[0..3] OF byte; N:STRING[8]; M:D[3]; H,I:U; V:ANY_NUM; T:time_of_day; END_STRUCT END_TYPE => | D U Z
FUNCTION_BLOCK B EVENT_INPUT E:K; END_EVENT VAR_INPUT X:S; Y:REAL; END_VAR VAR_OUTPUT Z:ARRAY[0..1] OF R; END_VAR VAR I:B; END_VAR FBS F:INT; G:S; END_FBS END_FUNCTION_BLOCK
    => INT S | B R S
ADAPTER A VAR_OUTPUT O:ANYTHING; P:ANY; END_VAR END_ADAPTER => | ANYTHING
type s : struct end_struct end_type => |
// a structure with a field of another one, and a block whose algorithm goes through it
TYPE S : STRUCT F:INT; G:U; END_STRUCT; END_TYPE => | U
FUNCTION_BLOCK V VAR X:S; END_VAR EC_STATES A: P; END_STATES ALGORITHM P IN ST: X.F := 1; X.G.H := 2; X.K := 1; END_ALGORITHM END_FUNCTION_BLOCK => | S
"#;

/// What a text mentions, and the types of its parts alone.
fn mentioned(alloc: Global, text: &str) -> Result<(Mentions, Vec<Name>), Fail> {
    let source = Source::read(alloc, Name::underscore(), text)?;
    match source.body() {
        Body::Tree(declared) => Ok((mentions_of(alloc, declared)?, mentions(alloc, declared)?)),
        Body::Broken(_) => Err(Fail::from("a broken text")),
    }
}

/// Compares the types that a text mentions.
fn compare_types(rt: &impl Abort, alloc: Global, text: &str, expected: &str) -> Result<(), Fail> {
    let (found, parts) = mentioned(alloc, text)?;
    let mut told = names_told(alloc, found.parts.as_slice())?;
    told.push_str("| ")?;
    say_names(&mut told, found.of_values.as_slice())?;
    assert_eq!(rt; told.as_str().trim_end(), expected, "{text}");
    let is_structure = text.starts_with("TYPE") || text.starts_with("type");
    assert_eq!(rt; found.is_structure, is_structure, "{text}");
    assert_eq!(rt; parts.as_slice(), found.parts.as_slice(), "{text}");
    Ok(())
}

#[test]
fn mentioned_types(rt: HostRuntime) -> Result<(), Fail> {
    for line in lines_of(rt.alloc(), MENTIONS)?.as_str().split('\n') {
        if let Some((text, expected)) = row_in(line) {
            compare_types(&rt, rt.alloc(), text, expected)?;
        }
    }
    Ok(())
}
