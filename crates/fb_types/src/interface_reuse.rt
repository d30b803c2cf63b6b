//! Whether two texts have the same interface for other units.
ghost use Rattle.std.specs.Prelude.{◌≡◌, true, Some, IfOk};
ghost use Rattle.fb_tree.specs.{Mentions.{unit_kind_of}, Tree.{decl_tree}, declared.kinds.UnitKind.TheVariants.{Block}};
ghost use Rattle.fb_iface.specs.Library.View.{tree_of};
ghost use Rattle.fb_types.specs.Local.{AreInterchangeableBlocks, HasSameNetwork};

use crate::ports::ports_of_type;
use fb_iface::is_same_side;
use fb_iface::parse::{Body, Source};
use fb_network::{Port, is_same_sort};
use fb_tree::text::{Name, same_name};
use fb_tree::{Decl, mention_the_same};
use std::alloc::{AllocError, Global};

fn is_same_adapter(a: &Option<Name>, b: &Option<Name>) -> bool
    ensures { result ≡ true → a.now ≡ b.now }
{
    match (a, b) {
        (None, None) => true,
        (Some(a), Some(b)) => same_name(a, b),
        _ => false,
    }
}

fn is_same_port(a: &Port, b: &Port) -> bool
    ensures { result ≡ true → a.now ≡ b.now }
{
    if !is_same_sort(a.sort, b.sort) || !is_same_side(a.side, b.side) {
        return false;
    }
    if !same_name(&a.name, &b.name) {
        return false;
    }
    is_same_adapter(&a.adapter, &b.adapter)
}

fn are_same_ports(a: &[Port], b: &[Port]) -> bool
    ensures { result ≡ true → a.now ≡ b.now }
{
    if a.len() != b.len() {
        return false;
    }
    for place in 0..a.len() {
        if !is_same_port(&a[place], &b[place]) {
            return false;
        }
    }
    true
}

/// Whether both declare a block type, with the same ports.
fn are_interchangeable_blocks(alloc: Global, a: &Decl, b: &Decl) -> Result<bool, AllocError>
    ensures says { IfOk result (λ are. are ≡ true
        → HasSameNetwork (Some (decl_tree a.now)) (Some (decl_tree b.now))) }
    ensures block { IfOk result (λ are. are ≡ true
        → unit_kind_of (decl_tree a.now) ≡ Block) }
{
    match (a, b) {
        (Decl::Block(a), Decl::Block(b)) => {
            let ports = ports_of_type(alloc, a)?;
            let others = ports_of_type(alloc, b)?;
            Ok(are_same_ports(&ports, &others))
        }
        _ => Ok(false),
    }
}

/// Whether both texts declare a block type, with the same ports and the same mentions. Then no net of what rests on one of them shows which
/// of them it is. Other units are not compared.
pub fn has_same_interface(alloc: Global, a: &Source, b: &Source) -> Result<bool, AllocError>
    ensures { IfOk result (λ is. is ≡ true
        → AreInterchangeableBlocks (tree_of a.now.text) (tree_of b.now.text)) }
{
    match (a.body(), b.body()) {
        (Body::Tree(tree), Body::Tree(other)) if mention_the_same(a.mentions(), b.mentions()) => {
            are_interchangeable_blocks(alloc, tree, other)
        }
        _ => Ok(false),
    }
}
