//! What a workbench keeps of a unit that is gone.
use crate::conversation::new_bench;
use crate::jobs::put;
use fb_library::Change;
use fb_text::Name;
use fb_wire::bench::Bench;
use std::alloc::Global;
use std::test::Fail;

// How many units the index finds near these.
fn near(alloc: Global, bench: &Bench, units: &[Name]) -> Result<usize, Fail> {
    Ok(bench.index().near_of(alloc, units)?.len())
}

// Puts B, which has a part A, and then removes it. It gives how many units are near these two after each.
fn put_and_removed(alloc: Global, bench: &mut Bench) -> Result<[usize; 2], Fail> {
    let units = [Name::read("A")?, Name::read("B")?];
    let text = "SUBAPPLICATION B SUBAPPS X:A; END_SUBAPPS END_SUBAPPLICATION";
    let mut changes = Vec::new(alloc);
    put(alloc, &mut changes, "B", 0, text)?;
    bench.commit(1, &changes)?;
    let there = near(alloc, bench, &units)?;
    changes.clear();
    let [_, unit] = units;
    changes.push(Change::Remove { unit, base: 1 })?;
    bench.commit(1, &changes)?;
    Ok([there, near(alloc, bench, &units)?])
}

#[test]
fn a_removed_unit_leaves_the_index(rt: HostRuntime) -> Result<(), Fail> {
    let mut bench = new_bench(rt.alloc(), 2, 100)?;
    assert_eq!(rt;
        put_and_removed(rt.alloc(), &mut bench)?,
        [1, 0],
        "B, and then none"
    );
    Ok(())
}
