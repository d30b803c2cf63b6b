//! What can be looked up by name.
ghost use Rattle.std.specs.{Prelude.{◌≡◌, IfSome}, Option.{option_map}};
ghost use Rattle.std.specs.FinMap as map;
ghost use Rattle.fb_parse.specs.Tree.Tree.{decl_tree, type_tree};
ghost use Rattle.fb_library.specs.View.{Sources, declaration_at, text_or_empty, tree_at, tree_of, type_in};

use fb_parse::text::Name;
use fb_parse::tree::{Decl, TypeDeclaration};
use fb_parse::{Body, Source};

/// Sources by the names of their units: a library, or what a job has read of one.
pub trait View {
    ghost sources: { Self → Sources };

    /// The source of a unit.
    fn get(&self, unit: &Name) -> Option<&Source>
        ensures text { option_map (λ it. it.now.text) result ≡ map.get (sources self.now) unit.now }
        ensures own { IfSome result (λ it. it.now.unit ≡ unit.now) };
}

/// The text of a unit, empty if it is absent.
pub fn text_by_name<'a, V: View>(view: &'a V, unit: &Name) -> &'a str
    ensures { result.now ≡ text_or_empty (V.sources view.now) unit.now }
{
    match view.get(unit) {
        Some(source) => source.text(),
        None => "",
    }
}

/// The declaration that a source spells, if it is not broken.
fn tree(source: &Source) -> Option<&Decl>
    ensures { option_map (λ d. decl_tree d.now) result ≡ tree_of source.now.text }
{
    match source.body() {
        Body::Tree(decl) => Some(decl),
        Body::Broken(_) => None,
    }
}

/// The type that is declared, if it is no system and no structure.
fn declared_type(decl: &Decl) -> Option<&TypeDeclaration>
    ensures { option_map (λ d. type_tree d.now) result ≡ type_in (decl_tree decl.now) }
{
    match decl {
        Decl::Block(declared) | Decl::Adapter(declared) | Decl::Subapplication(declared) => {
            Some(declared)
        }
        Decl::System(_) | Decl::Structure(_) => None,
    }
}

/// The declaration of a unit that is present and not broken.
pub fn tree_by_name<'a, V: View>(view: &'a V, unit: &Name) -> Option<&'a Decl>
    ensures { option_map (λ d. decl_tree d.now) result ≡ tree_at (V.sources view.now) unit.now }
{
    match view.get(unit) {
        Some(source) => tree(source),
        None => None,
    }
}

/// The type of a unit that is present and not broken, and no system or structure.
pub fn declaration_by_name<'a, V: View>(view: &'a V, unit: &Name) -> Option<&'a TypeDeclaration>
    ensures { option_map (λ d. type_tree d.now) result
        ≡ declaration_at (V.sources view.now) unit.now }
{
    match tree_by_name(view, unit) {
        Some(decl) => declared_type(decl),
        None => None,
    }
}
