//! Hints: nets of other subapplications, passed to a job.
ghost use Rattle.std.specs.{Prelude.{◌≡◌, All, IfOk, OnOk}, Option.{option_and_then}};
ghost use Rattle.fb_deploy.specs.{Flatten.Tables.{is_subapplication_in, is_subapplication_tree}, Library.Texts.{Texts}, Library.View.{tree_in, tree_of}};
ghost use Rattle.fb_parse.specs.Body.{body_tree};
ghost use Rattle.fb_tree.specs.Tree.{decl_tree};
ghost use Rattle.fb_jobs.specs.{Hints.{AddsChosen, AreChosen, net_key}, Reuse.{seen_text}, Reads.{IsOf}, Values.{all_seen, seen_of}};

use crate::kept::cache::Cache;
use crate::keys::key::{Key, Kind};
use crate::keys::read::Read;
use crate::values::value::Value;
use fb_parse::Body;
use fb_text::{Name, same_name};
use fb_tree::Decl;
use std::alloc::{AllocError, Global};
use std::sync::Arc;

/// A net of a unit that is kept, or that was computed on the way to another value.
#[derive(Drop)]
pub struct Hint {
    pub unit: Name,
    /// A `Value::Net`.
    pub value: Arc<Value>,
}

/// The key of a unit's net.
pub(crate) fn net_key(unit: Name) -> Key
    ensures { result ≡ net_key unit }
{
    Key {
        kind: Kind::Net,
        unit,
    }
}

fn is_of_subapplication(body: &Body) -> bool
    ensures { result ≡ is_subapplication_in (tree_in (body_tree body.now)) }
{
    match body {
        Body::Tree(Decl::Subapplication(_)) => true,
        Body::Tree(_) | Body::Broken(_) => false,
    }
}

/// Whether what was read is a subapplication.
fn is_subapplication(read: &Read) -> bool
    ensures { result
        ≡ is_subapplication_in (option_and_then tree_of (seen_text (seen_of read.now))) }
{
    match &read.source {
        Some(source) => is_of_subapplication(source.body()),
        None => false,
    }
}

/// Adds the net that is kept of what was read, if that is another subapplication.
fn add_hint<K: Cache>(
    kept: &K,
    unit: &Name,
    hints: &mut Vec<Hint>,
    read: &Read,
) -> Result<(), AllocError>
    ensures { OnOk result ((texts : Texts) → IsOf texts (seen_of read.now)
        → AddsChosen texts (K.kept kept.now) unit.now read.now.name hints.old.items hints.new.items) }
{
    let name = read.name.name();
    if same_name(unit, &name) || !is_subapplication(read) {
        return Ok(());
    }
    if let Some(value) = kept.value(&net_key(name)) {
        hints.push(Hint {
            unit: name,
            value: value.clone()?,
        })?;
    }
    Ok(())
}

/// The nets that are kept of other subapplications among the reads.
pub(crate) fn hints_among<K: Cache>(
    alloc: Global,
    kept: &K,
    unit: &Name,
    reads: &[Read],
) -> Result<Vec<Hint>, AllocError>
    ensures { IfOk result (λ hints. (texts : Texts) → All (IsOf texts) (all_seen reads.now)
        → AreChosen texts (K.kept kept.now) unit.now (all_seen reads.now) hints.items) }
{
    let mut hints = Vec::new(alloc);
    for read in reads {
        add_hint(kept, unit, &mut hints, read)?;
    }
    Ok(hints)
}
