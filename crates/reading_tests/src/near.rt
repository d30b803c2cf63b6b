//! What is near a unit and what it rests on, through structures.
use crate::copies::put;
use crate::told::names_told;
use fb_library::{Library, carried, far, near};
use fb_text::Name;
use std::alloc::Global;
use std::process::Abort;
use std::test::Fail;

// T is absent.
const UNITS: &str = r#"
TYPE S : STRUCT F:INT; G:U; END_STRUCT; END_TYPE
TYPE U : STRUCT H:ARRAY[0..1] OF T; END_STRUCT; END_TYPE
FUNCTION_BLOCK B VAR X:U; END_VAR END_FUNCTION_BLOCK
FUNCTION_BLOCK V VAR X:S; END_VAR END_FUNCTION_BLOCK
FUNCTION_BLOCK W VAR Y:B; END_VAR FBS I:V; END_FBS END_FUNCTION_BLOCK
SUBAPPLICATION Z FBS I:W; END_FBS END_SUBAPPLICATION
"#;

/// A unit, what it carries, what is near it, and what it rests on.
type Row = (&'static str, &'static str, &'static str, &'static str);

// A block carries nothing on, and the parts of a part are not near.
static ROWS: [Row; 7] = [
    ("T", "", "T ", "T "),
    ("U", "T ", "T U ", "T U "),
    ("S", "T U ", "S T U ", "S T U "),
    ("V", "S T U ", "S T U V ", "S T U V "),
    ("B", "T U ", "B T U ", "B T U "),
    ("W", "B ", "B S T U V W ", "B S T U V W "),
    ("Z", "", "B W Z ", "B S T U V W Z "),
];

fn fill(library: &mut Library, alloc: Global) -> Result<(), Fail> {
    for text in UNITS.split('\n') {
        if !text.is_empty() {
            let name = text.split_whitespace().nth(1).ok_or("no name")?;
            put(library, alloc, 1, name, text)?;
        }
    }
    Ok(())
}

fn compare(rt: &impl Abort, alloc: Global, library: &Library, row: &Row) -> Result<(), Fail> {
    let (name, carries, is_near, is_far) = row;
    let name = Name::read(name)?;
    let found = carried(alloc, library, &[name])?;
    assert_eq!(rt; names_told(alloc, &found)?.as_str(), *carries, "carried");
    let found = near(alloc, library, name)?;
    assert_eq!(rt; names_told(alloc, &found)?.as_str(), *is_near, "near");
    let found = far(alloc, library, name)?;
    assert_eq!(rt; names_told(alloc, &found)?.as_str(), *is_far, "far");
    Ok(())
}

#[test]
fn near_goes_through_structures(rt: HostRuntime) -> Result<(), Fail> {
    let mut library = Library::new(rt.alloc());
    fill(&mut library, rt.alloc())?;
    for row in &ROWS {
        compare(&rt, rt.alloc(), &library, row)?;
    }
    Ok(())
}
