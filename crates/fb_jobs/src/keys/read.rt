//! What was read for a key, and which keys there are.
ghost use Rattle.std.specs.{Prelude.{◌≡◌, Option}, Option.{option_map}};
ghost use Rattle.fb_deploy.specs.{Flatten.Nets.{has_net_in}, Plans.{has_plan_in}};
ghost use Rattle.fb_tree.specs.{Mentions.{unit_kind_of}, Tree.{DeclTree}};
ghost use Rattle.fb_jobs.specs.Keys.{has_key};
ghost use Rattle.fb_jobs.specs.declared.keys.key.Kind.TheVariants as kind;

use crate::keys::key::{Key, Kind};
use fb_deploy::library::Library;
use fb_deploy::parse::Source;
use fb_text::{CompactName, Name};
use fb_tree::UnitKind;
use std::sync::Arc;

/// What was read under a name: a source with its revision, or nothing, with revision 0.
pub struct Read {
    pub name: CompactName,
    pub revision: u64,
    pub source: Option<Arc<Source>>,
}

impl Drop for Read {
    fn drop(self) {
        let Self {
            name: _,
            revision: _,
            source: _,
        } = self;
    }
}

impl Read {
    /// The name that was read.
    pub fn name(&self) -> Name
        ensures { result ≡ self.now.name }
    {
        self.name.name()
    }
}

/// Whether the library has the key: each unit has its faults, a subapplication and a system have a net, a system has a plan.
#[tactic(auto, unfolding(crate::specs::Keys::has_key))]
pub fn has_key(library: &Library, key: Key) -> bool
    ensures { result ≡ has_key library.now key }
{
    match key.kind {
        Kind::Faults => library.source(&key.unit).is_some(),
        Kind::Net => has_net_and_plan(library, &key.unit).0,
        Kind::Deploy => has_net_and_plan(library, &key.unit).1,
    }
}

/// Whether a unit of this kind has a net, and whether it has a plan.
fn has_net_and_plan_as(kind: Option<UnitKind>) -> (bool, bool)
    ensures net { (tree : Option DeclTree) → kind ≡ option_map unit_kind_of tree → result.0 ≡ has_net_in tree }
    ensures plan { (tree : Option DeclTree) → kind ≡ option_map unit_kind_of tree → result.1 ≡ has_plan_in tree }
{
    match kind {
        Some(UnitKind::Subapplication) => (true, false),
        Some(UnitKind::System) => (true, true),
        _ => (false, false),
    }
}

/// Whether the library has the key of a unit's net, and whether that of its plan: both by one search.
#[tactic(auto, unfolding(crate::specs::Keys::has_key))]
pub fn has_net_and_plan(library: &Library, unit: &Name) -> (bool, bool)
    ensures net { result.0 ≡ has_key library.now (record { kind = kind.Net; unit = unit.now }) }
    ensures plan { result.1 ≡ has_key library.now (record { kind = kind.Deploy; unit = unit.now }) }
{
    match library.filed(unit) {
        Some(filed) => has_net_and_plan_as(filed.kind()),
        None => (false, false),
    }
}
