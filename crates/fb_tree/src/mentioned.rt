//! What a unit mentions, of both sorts.

ghost use Rattle.fb_text.specs.Elementary.{is_elementary};
ghost use Rattle.fb_tree.specs.{Mentions.{all_mentions_of, is_structure_tree, mentioned, value_types, values_of}, Tree.{decl_tree}};
ghost use Rattle.std.specs.Prelude.{◌≡◌, ◌↔◌, true, IfOk, filter, map, not};

use crate::declaration::Decl;
use crate::interface::Variables;
use crate::mention::mentions;
use fb_text::{Name, is_elementary, sorted_names};
use std::alloc::{AllocError, Global};

/// What a unit mentions, each sort in the order of the names' bytes, each name once.
#[derive(Debug)]
pub struct Mentions {
    /// The types of its instances, plugs and sockets.
    pub parts: Vec<Name>,
    /// The types of its variables or fields, except elementary ones.
    pub of_values: Vec<Name>,
    pub is_structure: bool,
}

impl Drop for Mentions {
    fn drop(self) {
        let Self {
            parts: _,
            of_values: _,
            is_structure: _,
        } = self;
    }
}

/// Whether both mention the same, and both are structures or neither is.
#[tactic(auto, using(crate::proofs::MentionLemmas::same_mentioned))]
pub fn mention_the_same(a: &Mentions, b: &Mentions) -> bool
    ensures same { result ≡ true → mentioned a.now ≡ mentioned b.now }
    ensures all { mentioned a.now ≡ mentioned b.now → result ≡ true }
{
    a.is_structure == b.is_structure
        && are_same_names(a.parts.as_slice(), b.parts.as_slice())
        && are_same_names(a.of_values.as_slice(), b.of_values.as_slice())
}

fn are_same_names(a: &[Name], b: &[Name]) -> bool
    ensures { (result ≡ true) ↔ (a.now ≡ b.now) }
{
    a == b
}

/// What a declaration mentions.
pub fn mentions_of(alloc: Global, decl: &Decl) -> Result<Mentions, AllocError>
    ensures { IfOk result (λ m. mentioned m ≡ all_mentions_of (decl_tree decl.now)) }
{
    let parts = mentions(alloc, decl)?;
    let of_values = values(alloc, decl)?;
    Ok(Mentions {
        parts,
        of_values,
        is_structure: is_structure(decl),
    })
}

fn is_structure(decl: &Decl) -> bool
    ensures { result ≡ is_structure_tree (decl_tree decl.now) }
{
    match decl {
        Decl::Block(_) | Decl::Adapter(_) | Decl::Subapplication(_) | Decl::System(_) => false,
        Decl::Structure(_) => true,
    }
}

/// The names of the types of all variables or fields, except elementary ones, in the order of their bytes, each once.
fn values(alloc: Global, decl: &Decl) -> Result<Vec<Name>, AllocError>
    ensures { IfOk result (λ names. names.items ≡ values_of (decl_tree decl.now)) }
{
    let names = declared_types(alloc, decl)?;
    sorted_names(alloc, names.as_slice())
}

/// The names of the types of all variables or fields, except elementary ones, in the order of the text.
#[tactic(auto, using(crate::proofs::MentionLemmas::types_of_variables))]
fn declared_types(alloc: Global, decl: &Decl) -> Result<Vec<Name>, AllocError>
    ensures { IfOk result (λ names. names.items
        ≡ filter (λ name. not (is_elementary name)) (value_types (decl_tree decl.now))) }
{
    match decl {
        Decl::Block(declared) | Decl::Adapter(declared) | Decl::Subapplication(declared) => {
            types_of_values(alloc, declared.interface.variables.as_slice())
        }
        Decl::System(_) => Ok(Vec::new(alloc)),
        Decl::Structure(structure) => types_of_values(alloc, structure.fields.as_slice()),
    }
}

/// The name of the type of each of these, except elementary ones.
fn types_of_values(alloc: Global, groups: &[Variables]) -> Result<Vec<Name>, AllocError>
    ensures { IfOk result (λ names. names.items
        ≡ filter (λ name. not (is_elementary name)) (map (λ v. v.type_use.name.name) groups.now)) }
{
    let mut names = Vec::new(alloc);
    for group in groups {
        let name = &group.type_use.name.name;
        if !is_elementary(name.as_str().as_bytes()) {
            names.push(name.name())?;
        }
    }
    Ok(names)
}
