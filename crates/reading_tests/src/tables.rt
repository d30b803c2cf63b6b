//! Tables of values by name.
use fb_library::{Spot, Table, names_of, open_new};
use fb_text::Name;
use std::alloc::Global;
use std::collections::BTreeSet;
use std::process::Abort;
use std::sync::Arc;
use std::test::Fail;

// Enough that the table has several shelves of entries.
const MANY: usize = 2_000;

fn name(alloc: Global, number: usize) -> Result<Name, Fail> {
    let text = format!(in alloc; "N{number:04}")?;
    Ok(Name::read(text.as_str())?)
}

/// Puts a value under the name of a number.
fn put(alloc: Global, table: &mut Table<usize>, number: usize, value: usize) -> Result<(), Fail> {
    Ok(table.put(name(alloc, number)?, Arc::new(alloc, value)?)?)
}

/// A table of `MANY` names, from a number on in steps of this size and round. Each has its number.
fn table(alloc: Global, first: usize, step: usize) -> Result<Table<usize>, Fail> {
    let mut table = Table::new(alloc);
    let mut number = first;
    for _ in 0..MANY {
        put(alloc, &mut table, number, number)?;
        number = number.wrapping_add(step) % MANY;
    }
    Ok(table)
}

/// The same in no order, by sevens.
fn by_sevens(alloc: Global) -> Result<Table<usize>, Fail> {
    table(alloc, 0, 7)
}

fn value(table: &Table<usize>, name: &Name) -> Option<usize> {
    match table.get(name) {
        Some(value) => Some(**value),
        None => None,
    }
}

/// Compares a table that has all names.
fn compare_whole(rt: &impl Abort, alloc: Global, table: &Table<usize>) -> Result<(), Fail> {
    let names = table.names(alloc)?;
    assert_eq!(rt; [table.len(), names.len()], [MANY, MANY], "lengths");
    for number in 0..MANY {
        let name = name(alloc, number)?;
        assert_eq!(rt; value(table, &name), Some(number), "a value");
        assert_eq!(rt; table.name_at(number), Some(name), "a place");
        assert_eq!(rt; names.get(number), Some(&name), "a name");
    }
    Ok(())
}

#[test]
fn a_table_has_what_was_put(rt: HostRuntime) -> Result<(), Fail> {
    let table: Table<usize> = by_sevens(rt.alloc())?;
    compare_whole(&rt, rt.alloc(), &table)?;
    assert_eq!(rt; table.name_at(MANY), None, "behind all");
    assert_eq!(rt; value(&table, &Name::read("N")?), None, "N");
    assert_eq!(rt; value(&table, &Name::read("Z")?), None, "Z");
    Ok(())
}

#[test]
fn a_new_table_is_empty(rt: HostRuntime) {
    let table = Table::<usize>::new(rt.alloc());
    assert_eq!(rt; table.len(), 0, "length");
    assert_eq!(rt; table.name_at(0), None, "the first name");
}

/// The names of every second number, in order.
fn every_second(alloc: Global, first: usize) -> Result<Vec<Name>, Fail> {
    let mut names = Vec::new(alloc);
    let mut number = first;
    for _ in 0..MANY / 2 {
        names.push(name(alloc, number)?)?;
        number = number.wrapping_add(2);
    }
    Ok(names)
}

/// Removes the name of every second number.
fn remove_from(alloc: Global, table: &mut Table<usize>, first: usize) -> Result<(), Fail> {
    for name in &every_second(alloc, first)? {
        table.remove(name)?;
    }
    Ok(())
}

/// Compares a table with a list of its names in order.
fn compare_with_list(
    rt: &impl Abort,
    alloc: Global,
    table: &Table<usize>,
    names: &[Name],
) -> Result<(), Fail> {
    let found = table.names(alloc)?;
    assert_eq!(rt; found.as_slice(), names, "names");
    assert_eq!(rt; table.len(), names.len(), "length");
    for (index, name) in names.iter().enumerate() {
        assert_eq!(rt; table.name_at(index), Some(*name), "a place");
        assert_eq!(rt; table.get(name).is_some(), true, "a value");
    }
    Ok(())
}

/// Compares a table into which the names were put from a number on in steps: with all of them, with the odd ones alone, and without any.
fn compare_order(rt: &impl Abort, alloc: Global, first: usize, step: usize) -> Result<(), Fail> {
    let mut table = table(alloc, first, step)?;
    compare_whole(rt, alloc, &table)?;
    remove_from(alloc, &mut table, 0)?;
    compare_with_list(rt, alloc, &table, &every_second(alloc, 1)?)?;
    remove_from(alloc, &mut table, 1)?;
    compare_with_list(rt, alloc, &table, &[])
}

/// The value that a look-up from a spot on finds.
fn value_near(table: &Table<usize>, name: &Name, spot: &mut Spot) -> Option<usize> {
    match table.get_near(name, spot) {
        Some(value) => Some(**value),
        None => None,
    }
}

/// Compares look-ups that begin where the last one ended with the others, of all names in steps of this size and round.
fn compare_near(
    rt: &impl Abort,
    alloc: Global,
    table: &Table<usize>,
    step: usize,
) -> Result<(), Fail> {
    let mut spot = Spot::first();
    let mut number: usize = 0;
    for _ in 0..MANY {
        let name = name(alloc, number)?;
        assert_eq!(rt;
            value_near(table, &name, &mut spot),
            value(table, &name),
            "a value"
        );
        number = number.wrapping_add(step) % MANY;
    }
    Ok(())
}

#[test]
fn a_look_up_may_begin_anywhere(rt: HostRuntime) -> Result<(), Fail> {
    let mut table = by_sevens(rt.alloc())?;
    remove_from(rt.alloc(), &mut table, 0)?;
    compare_near(&rt, rt.alloc(), &table, 1)?;
    compare_near(&rt, rt.alloc(), &table, 7)?;
    compare_near(&rt, rt.alloc(), &table, MANY - 1)
}

#[test]
fn names_may_be_put_rising(rt: HostRuntime) -> Result<(), Fail> {
    compare_order(&rt, rt.alloc(), 0, 1)
}

#[test]
fn names_may_be_put_falling(rt: HostRuntime) -> Result<(), Fail> {
    compare_order(&rt, rt.alloc(), MANY - 1, MANY - 1)
}

#[test]
fn names_may_be_put_scattered(rt: HostRuntime) -> Result<(), Fail> {
    compare_order(&rt, rt.alloc(), 0, 2_003)
}

/// Removes the even numbers and what is not there, and puts another value under 1.
fn change(alloc: Global, table: &mut Table<usize>) -> Result<(), Fail> {
    remove_from(alloc, table, 0)?;
    put(alloc, table, 1, MANY)?;
    Ok(table.remove(&Name::read("Z")?)?)
}

fn compare_changed(rt: &impl Abort, alloc: Global, table: &Table<usize>) -> Result<(), Fail> {
    let [zero, one] = [name(alloc, 0)?, name(alloc, 1)?];
    assert_eq!(rt; table.len(), MANY / 2, "length");
    assert_eq!(rt; table.name_at(0), Some(one), "the first name");
    assert_eq!(rt; value(table, &zero), None, "0");
    assert_eq!(rt; value(table, &one), Some(MANY), "1");
    Ok(())
}

/// Removes the odd numbers too, and puts 1 again.
fn compare_emptied(rt: &impl Abort, alloc: Global, table: &mut Table<usize>) -> Result<(), Fail> {
    remove_from(alloc, table, 1)?;
    compare_with_list(rt, alloc, table, &[])?;
    put(alloc, table, 1, 1)?;
    compare_with_list(rt, alloc, table, &[name(alloc, 1)?])
}

#[test]
fn a_copy_of_a_table_stays_as_it_was(rt: HostRuntime) -> Result<(), Fail> {
    let mut table: Table<usize> = by_sevens(rt.alloc())?;
    let copy = table.copy()?;
    change(rt.alloc(), &mut table)?;
    compare_changed(&rt, rt.alloc(), &table)?;
    compare_whole(&rt, rt.alloc(), &copy)?;
    compare_emptied(&rt, rt.alloc(), &mut table)
}

// Opens C, B, A and C again, where B has been seen.
#[test]
fn new_names_are_opened_once(rt: HostRuntime) -> Result<(), Fail> {
    let [a, b, c] = [Name::read("A")?, Name::read("B")?, Name::read("C")?];
    let mut seen = BTreeSet::new(rt.alloc());
    seen.insert(b)?;
    let mut pending = Vec::new(rt.alloc());
    open_new([c, b, a, c].as_slice(), &mut seen, &mut pending)?;
    assert_eq!(rt; pending.as_slice(), [c, a].as_slice(), "opened");
    let names = names_of(rt.alloc(), &seen)?;
    assert_eq!(rt; names.as_slice(), [a, b, c].as_slice(), "seen");
    Ok(())
}
