//! The structures that references of a unit may go through.
ghost use Rattle.std.specs.{Prelude.{◌≡◌, IfOk, List, ℕ, nat_eq}, Cmp.Lexicographic.{pointwise}, HashMap.{get}};
ghost use Rattle.fb_tree.specs.Tree.{structure_tree};
ghost use Rattle.fb_library.specs.{Near.{bases_at}, View.{tree_at}};
ghost use Rattle.fb_iface.specs.{Fields.{fields_among, fields_in, fields_near, fields_of_tree}, CachedFields.{fields_shown, kept_fields, structures_in}};
ghost use Rattle.fb_iface.specs.Names.{first_ones};

use crate::ports::{DeclaredVariable, variable_table};
use fb_library::{View, carried, part_mentions, tree_by_name};
use fb_tree::text::Name;
use fb_tree::{Decl, Structure};
use indexmap::IndexMap;
use std::alloc::{AllocError, Global};
use std::collections::HashMap;
use std::marker::Model;

/// The fields of a structure by name, in the order of the text. A name that is declared more than once means its first
/// declaration.
pub struct FieldTable<'a> {
    by_name: IndexMap<Name, DeclaredVariable<'a>>,
}

impl<'a> Drop for FieldTable<'a> {
    fn drop(self) {
        let Self { by_name: _ } = self;
    }
}

impl<'a> Model for FieldTable<'a> {
    ghost use Rattle.std.specs.Prelude.{List, ℕ};
    ghost use Rattle.fb_iface.specs.Ports.{DeclaredVariable};

    ghost Value = { List (List ℕ × DeclaredVariable) };

    ghost view = { λ t. t.by_name.entries };
}

impl<'a> FieldTable<'a> {
    ghost use Rattle.std.specs.Option.{option_copied};
    ghost use Rattle.fb_iface.specs.Names.{stands_for};

    /// The fields of a structure.
    fn of_structure(alloc: Global, structure: &'a Structure) -> Result<FieldTable<'a>, AllocError>
        ensures { IfOk result
            (λ fields. fields ≡ first_ones (fields_in (structure_tree structure.now))) }
    {
        let by_name = variable_table(alloc, structure.fields.as_slice())?;
        Ok(FieldTable { by_name })
    }

    /// The field that the name means.
    #[tactic(auto, using(crate::proofs::TableLemmas::found_by_name))]
    pub fn field(&self, name: &Name) -> Option<&DeclaredVariable<'a>>
        ensures { option_copied result ≡ stands_for self.now name.now }
    {
        self.by_name.get(name)
    }
}

/// What is kept of a carried type that a further name may be after.
#[derive(Drop)]
enum CachedFields<'a> {
    /// The type is absent or broken.
    NotChecked,
    /// The fields of a structure.
    Known(FieldTable<'a>),
}

/// What a further name may name after a plain type.
pub enum Behind<'a> {
    /// Nothing is known of the type, so no name is checked.
    NotChecked,
    /// The type is known and has no fields.
    NoFields,
    /// The fields of a structure.
    Fields(&'a FieldTable<'a>),
}

/// The types of values that a unit and its parts carry: structures with their fields, and those that are absent or broken. The fields
/// of each structure are read once.
pub struct Structures<'a> {
    by_name: HashMap<Name, CachedFields<'a>>,
}

impl<'a> Drop for Structures<'a> {
    fn drop(self) {
        let Self { by_name: _ } = self;
    }
}

impl<'a> Structures<'a> {
    /// Those that the unit and its parts carry.
    pub fn near<V: View>(
        alloc: Global,
        view: &'a V,
        unit: &Name,
    ) -> Result<Structures<'a>, AllocError>
        ensures { IfOk result
            (λ it. structures_in it ≡ fields_near (V.sources view.now) unit.now) }
    {
        let bases = bases(alloc, view, unit)?;
        let names = carried(alloc, view, bases.as_slice())?;
        let by_name = kept_types(alloc, view, names.as_slice())?;
        Ok(Structures { by_name })
    }

    /// What may be named after a plain type of this name.
    pub fn get(&self, name: &Name) -> Behind<'_>
        ensures { fields_shown result ≡ structures_in self.now name.now }
    {
        match self.by_name.get(name) {
            None => Behind::NoFields,
            Some(CachedFields::NotChecked) => Behind::NotChecked,
            Some(CachedFields::Known(fields)) => Behind::Fields(fields),
        }
    }
}

/// The unit and its parts.
fn bases<V: View>(alloc: Global, view: &V, unit: &Name) -> Result<Vec<Name>, AllocError>
    ensures { IfOk result (λ bases. bases.items ≡ bases_at (V.sources view.now) unit.now) }
{
    let mut bases = Vec::new(alloc);
    bases.extend_from_slice(part_mentions(view, unit))?;
    bases.push(*unit)?;
    Ok(bases)
}

/// What is kept of the types with these names.
fn kept_types<'a, V: View>(
    alloc: Global,
    view: &'a V,
    names: &[Name],
) -> Result<HashMap<Name, CachedFields<'a>>, AllocError>
    ensures { IfOk result
        (λ types. (name : List ℕ) → kept_fields (get (pointwise nat_eq) types name)
        ≡ fields_among (V.sources view.now) names.now name) }
{
    let mut types = HashMap::new(alloc);
    for name in names {
        if let Some(kept) = kept_type(alloc, view, name)? {
            types.insert(*name, kept)?;
        }
    }
    Ok(types)
}

/// What is kept of a type; nothing if it is known and no structure.
fn kept_type<'a, V: View>(
    alloc: Global,
    view: &'a V,
    name: &Name,
) -> Result<Option<CachedFields<'a>>, AllocError>
    ensures { IfOk result
        (λ kept. kept_fields kept ≡ fields_of_tree (tree_at (V.sources view.now) name.now)) }
{
    match tree_by_name(view, name) {
        None => Ok(Some(CachedFields::NotChecked)),
        Some(Decl::Structure(structure)) => {
            let fields = FieldTable::of_structure(alloc, structure)?;
            Ok(Some(CachedFields::Known(fields)))
        }
        Some(_) => Ok(None),
    }
}
