//! Each checker alone, on a text that has faults of all, and on one that has none.
use crate::checkers::{Checker, find, found_by};
use crate::plant::{all_told, library, plant_with};
use fb_tree::text::Name;
use std::test::Fail;

const TEXT: &str =
    "FUNCTION_BLOCK U EVENT_INPUT E; END_EVENT VAR X:INT; END_VAR FBS F:T; G:NO; END_FBS EVENT_CONNECTIONS E TO F.N; END_CONNECTIONS EC_STATES S: -> O; END_STATES EC_TRANSITIONS S TO Z := E[X]; END_TRANSITIONS ALGORITHM H IN ST: V := 1; END_ALGORITHM END_FUNCTION_BLOCK";

static FOUND: [(Checker, &str); 4] = [
    (Checker::Declarations, "MIXED_KIND U; UNKNOWN_TYPE NO"),
    (Checker::Expressions, "CLASS X #2; VARIABLE_UNKNOWN V"),
    (Checker::Charts, "EVENT_UNKNOWN O; STATE_UNKNOWN Z"),
    (Checker::Networks, "PORT_UNKNOWN F.N"),
];

#[test]
fn each_checker_finds_its_own_faults(rt: HostRuntime) -> Result<(), Fail> {
    let library = plant_with(rt.alloc(), TEXT)?;
    let unit = Name::read("U")?;
    for (checker, expected) in &FOUND {
        let found = found_by(*checker, rt.alloc(), &library, &unit)?;
        let told = all_told(rt.alloc(), TEXT, found.as_slice())?;
        assert_eq!(rt; told.as_str(), *expected, "a checker alone");
    }
    Ok(())
}

// A subapplication without faults, and the type of its blocks.
const FAULTLESS: &str = r#"
FUNCTION_BLOCK TN EVENT_INPUT I; END_EVENT EVENT_OUTPUT O; END_EVENT VAR_INPUT DT:TIME; END_VAR END_FUNCTION_BLOCK
SUBAPPLICATION SA FBS F:TN; G:TN(DT:=T#250ms); H:TN; END_FBS EVENT_CONNECTIONS F.O TO G.I; G.O TO H.I; END_CONNECTIONS END_SUBAPPLICATION
"#;

#[test]
fn no_checker_finds_a_fault(rt: HostRuntime) -> Result<(), Fail> {
    let library = library(rt.alloc(), FAULTLESS)?;
    let unit = Name::read("SA")?;
    assert!(rt; find(rt.alloc(), &library, &unit, &[])?);
    Ok(())
}
