//! What the numbers of a flat network mean.
ghost use Rattle.std.specs.Prelude.{◌≡◌, ◌++◌, length, map, slice_get};
ghost use Rattle.fb_network.specs.{Laid.{block_at, link_at}, Numbered.{block_numbered, block_or_nothing, link_numbered, link_or_nothing}};

use crate::flat::Flat;
use crate::flat::entries::{Join, Leaf};
use crate::paths::prefixes::Prefixes;
use fb_tree::Sort;

/// The two parts of the path of a block.
#[tactic(auto, using(crate::proofs::Numbers::numbers))]
fn block_path<'a>(prefixes: &'a Prefixes, leaves: &[Leaf], number: u32) -> (&'a str, &'a str)
    ensures { result.0.now ++ result.1.now
        ≡ (block_or_nothing (slice_get (map (block_at prefixes.now) leaves.now) number)).path }
{
    match leaves.get(number as usize) {
        Some(leaf) => prefixes.parts(&leaf.place),
        None => ("", ""),
    }
}

/// The name of the type of a block.
#[tactic(auto, using(crate::proofs::Numbers::numbers))]
fn block_type<'a>(_prefixes: &Prefixes, leaves: &'a [Leaf], number: u32) -> &'a str
    ensures { result.now
        ≡ (block_or_nothing (slice_get (map (block_at _prefixes.now) leaves.now) number)).type_name }
{
    match leaves.get(number as usize) {
        Some(leaf) => leaf.type_name.as_str(),
        None => "",
    }
}

/// The two parts of the path where a link begins.
#[tactic(auto, using(crate::proofs::Numbers::numbers))]
fn link_from<'a>(prefixes: &'a Prefixes, joins: &[Join], number: u32) -> (&'a str, &'a str)
    ensures { result.0.now ++ result.1.now
        ≡ (link_or_nothing (slice_get (map (link_at prefixes.now) joins.now) number)).from }
{
    match joins.get(number as usize) {
        Some(join) => prefixes.parts(&join.from),
        None => ("", ""),
    }
}

/// The two parts of the path where a link ends.
#[tactic(auto, using(crate::proofs::Numbers::numbers))]
fn link_to<'a>(prefixes: &'a Prefixes, joins: &[Join], number: u32) -> (&'a str, &'a str)
    ensures { result.0.now ++ result.1.now
        ≡ (link_or_nothing (slice_get (map (link_at prefixes.now) joins.now) number)).to }
{
    match joins.get(number as usize) {
        Some(join) => prefixes.parts(&join.to),
        None => ("", ""),
    }
}

/// The sort of a link.
#[tactic(auto, using(crate::proofs::Numbers::numbers))]
fn link_sort(_prefixes: &Prefixes, joins: &[Join], number: u32) -> Sort
    ensures { result
        ≡ (link_or_nothing (slice_get (map (link_at _prefixes.now) joins.now) number)).sort }
{
    match joins.get(number as usize) {
        Some(join) => join.sort,
        None => Sort::Event,
    }
}

impl Flat {
    /// How many blocks there are.
    pub fn block_count(&self) -> usize
        ensures { result ≡ length self.now.blocks }
    {
        self.tables.leaves.len()
    }

    /// How many links there are.
    pub fn link_count(&self) -> usize
        ensures { result ≡ length self.now.links }
    {
        self.tables.joins.len()
    }

    /// The path of a block, in two parts.
    pub fn block_path(&self, number: u32) -> (&str, &str)
        ensures { result.0.now ++ result.1.now ≡ (block_numbered self.now number).path }
    {
        block_path(&self.tables.prefixes, &self.tables.leaves, number)
    }

    /// The name of the type of a block.
    pub fn block_type(&self, number: u32) -> &str
        ensures { result.now ≡ (block_numbered self.now number).type_name }
    {
        block_type(&self.tables.prefixes, &self.tables.leaves, number)
    }

    /// The path where a link begins, in two parts.
    pub fn link_from(&self, number: u32) -> (&str, &str)
        ensures { result.0.now ++ result.1.now ≡ (link_numbered self.now number).from }
    {
        link_from(&self.tables.prefixes, &self.tables.joins, number)
    }

    /// The path where a link ends, in two parts.
    pub fn link_to(&self, number: u32) -> (&str, &str)
        ensures { result.0.now ++ result.1.now ≡ (link_numbered self.now number).to }
    {
        link_to(&self.tables.prefixes, &self.tables.joins, number)
    }

    /// The sort of a link.
    pub fn link_sort(&self, number: u32) -> Sort
        ensures { result ≡ (link_numbered self.now number).sort }
    {
        link_sort(&self.tables.prefixes, &self.tables.joins, number)
    }
}
