//! The index of units by what they mention.
ghost use Rattle.std.specs.{Prelude.{◌≡◌, false, OnOk}, BTreeMap.{is_at}};
ghost use Rattle.fb_text.specs.Order.{name_cmp};
ghost use Rattle.fb_tree.specs.Mentions.{mentioned, nothing_mentioned};
ghost use Rattle.fb_index.specs.Indexed.{nothing_indexed, IsIndexedAs};

use crate::told::names_told;
use fb_index::Index;
use fb_text::{Name, same_name};
use fb_tree::Mentions;
use std::alloc::{AllocError, Global};
use std::process::Abort;
use std::test::Fail;

/// What an absent unit mentions.
pub fn nothing(alloc: Global) -> Mentions
    ensures { mentioned result ≡ nothing_mentioned }
{
    Mentions {
        parts: Vec::new(alloc),
        of_values: Vec::new(alloc),
        is_structure: false,
    }
}

/// These parts, and no types of values.
pub fn parts(alloc: Global, names: &[Name]) -> Result<Mentions, AllocError> {
    let mut mentions = nothing(alloc);
    mentions.parts.extend_from_slice(names)?;
    Ok(mentions)
}

/// These types of values, and no parts.
fn values(alloc: Global, names: &[Name], is_structure: bool) -> Result<Mentions, AllocError> {
    let mut mentions = nothing(alloc);
    mentions.of_values.extend_from_slice(names)?;
    mentions.is_structure = is_structure;
    Ok(mentions)
}

/// A unit and what it mentions.
#[derive(Drop)]
struct Unit {
    name: Name,
    mentions: Mentions,
}

/// A unit, and what it mentions.
fn unit_of(name: Name, mentions: Mentions) -> Unit {
    Unit { name, mentions }
}

/// A name, and the units near which it is and those that rest on it.
type Row = (&'static str, &'static str, &'static str);

/// Units that are indexed one after the other.
#[derive(Drop)]
struct Case {
    first: Unit,
    second: Unit,
    third: Unit,
    fourth: Unit,
    before: &'static [Row],
    /// What the second unit mentions in the end.
    change: Mentions,
    after: &'static [Row],
    /// Once the second unit is gone.
    gone: &'static [Row],
}

fn refuse_same(a: &Name, b: &Name) -> Result<(), Fail>
    ensures { OnOk result (is_at (name_cmp a.now) b.now ≡ false) }
{
    if same_name(a, b) {
        return Err(Fail::from("the same name"));
    }
    Ok(())
}

fn fill(index: &mut Index, alloc: Global, case: &Case) -> Result<(), Fail>
    requires empty { index.old ≡ nothing_indexed }
    ensures { OnOk result
        (IsIndexedAs index.new case.now.second.name (mentioned case.now.second.mentions)) }
{
    let [a, b, c, d] = [&case.first, &case.second, &case.third, &case.fourth];
    refuse_same(&a.name, &b.name)?;
    refuse_same(&a.name, &c.name)?;
    refuse_same(&a.name, &d.name)?;
    refuse_same(&b.name, &c.name)?;
    refuse_same(&b.name, &d.name)?;
    refuse_same(&c.name, &d.name)?;
    let none = nothing(alloc);
    index.replace(alloc, a.name, &none, &a.mentions)?;
    index.replace(alloc, b.name, &none, &b.mentions)?;
    index.replace(alloc, c.name, &none, &c.mentions)?;
    index.replace(alloc, d.name, &none, &d.mentions)?;
    Ok(())
}

fn compare(rt: &impl Abort, alloc: Global, index: &Index, rows: &[Row]) -> Result<(), Fail> {
    for (name, near, far) in rows {
        let unit = Name::read(name)?;
        let found = index.near_of(alloc, &[unit])?;
        assert_eq!(rt; names_told(alloc, &found)?.as_str(), *near, "near {name}");
        let found = index.far_of(alloc, &[unit])?;
        assert_eq!(rt; names_told(alloc, &found)?.as_str(), *far, "far of {name}");
    }
    Ok(())
}

/// The same for an index and a copy of it.
fn compare_copies(rt: &impl Abort, alloc: Global, index: &Index, rows: &[Row]) -> Result<(), Fail> {
    compare(rt, alloc, index, rows)?;
    compare(rt, alloc, &index.copy()?, rows)
}

/// Fills an index, and compares it with a copy that is changed, and from which a unit is then removed.
fn compare_filled(rt: &impl Abort, alloc: Global, case: &Case) -> Result<(), Fail> {
    let mut index = Index::new(alloc);
    fill(&mut index, alloc, case)?;
    let mut copy = index.copy()?;
    let unit = &case.second;
    copy.replace(alloc, unit.name, &unit.mentions, &case.change)?;
    compare_copies(rt, alloc, &index, case.before)?;
    compare_copies(rt, alloc, &copy, case.after)?;
    copy.remove(alloc, &unit.name, &case.change)?;
    compare_copies(rt, alloc, &copy, case.gone)
}

/// A mentions B, B mentions A, and S mentions A, until B mentions nothing any more.
fn recursive(alloc: Global) -> Result<Case, Fail> {
    let [a, b, s] = [Name::read("A")?, Name::read("B")?, Name::read("S")?];
    Ok(Case {
        first: unit_of(a, parts(alloc, &[b])?),
        second: unit_of(b, parts(alloc, &[a])?),
        third: unit_of(s, parts(alloc, &[a])?),
        fourth: unit_of(Name::read("T")?, nothing(alloc)),
        before: &[("B", "A B ", "A B S "), ("T", "T ", "T ")],
        change: nothing(alloc),
        after: &[("A", "A S ", "A S "), ("X", "", "")],
        gone: &[("A", "A S ", "A S "), ("B", "A ", "A S ")],
    })
}

/// V has a value of the structure S, which has a field of the structure U, and W has a part V, until S is no structure any more.
fn structures(alloc: Global) -> Result<Case, Fail> {
    let [s, u, v] = [Name::read("S")?, Name::read("U")?, Name::read("V")?];
    Ok(Case {
        first: unit_of(v, values(alloc, &[s], false)?),
        second: unit_of(s, values(alloc, &[u], true)?),
        third: unit_of(u, values(alloc, &[], true)?),
        fourth: unit_of(Name::read("W")?, parts(alloc, &[v])?),
        before: &[("U", "S U V W ", "S U V W "), ("S", "S V W ", "S V W ")],
        change: values(alloc, &[u], false)?,
        after: &[("U", "S U ", "S U V W "), ("S", "S V W ", "S V W ")],
        gone: &[("U", "U ", "U "), ("S", "V W ", "V W ")],
    })
}

#[test]
fn near_and_far_of_names(rt: HostRuntime) -> Result<(), Fail> {
    compare_filled(&rt, rt.alloc(), &recursive(rt.alloc())?)
}

#[test]
fn near_through_structures(rt: HostRuntime) -> Result<(), Fail> {
    compare_filled(&rt, rt.alloc(), &structures(rt.alloc())?)
}
