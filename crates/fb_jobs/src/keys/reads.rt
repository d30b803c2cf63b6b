//! The reads of a library for a key.
ghost use Rattle.std.specs.Prelude.{◌≡◌, true, Some, None, IfOk, IfSome};
ghost use Rattle.fb_deploy.specs.Library.Texts.{held};
ghost use Rattle.fb_jobs.specs.{Again.{AreReads, AreReadUnder}, Keys.{needs}, Reads.{read_names}, Texts.{seen_under, text_of}, Values.{all_seen, seen_of, IsOwn}};

use crate::kept::reuse::all_mention_the_same;
use crate::keys::key::{Key, Kind};
use crate::keys::read::Read;
use crate::keys::read_list::ReadList;
use crate::keys::texts::TextReads;
use crate::values::derivation::Derivation;
use fb_deploy::flatten::all_far;
use fb_deploy::library::{Library, Spot, Version, near};
use fb_deploy::parse::Source;
use fb_text::{CompactName, Name};
use std::alloc::{AllocError, Global};
use std::sync::Arc;

/// The names whose texts decide the key's value, in order.
#[tactic(auto, unfolding(crate::specs::Keys::needs))]
pub fn needed(alloc: Global, library: &Library, key: Key) -> Result<Vec<Name>, AllocError>
    ensures { IfOk result (λ names. names.items ≡ needs library.now key) }
{
    match key.kind {
        Kind::Faults => near(alloc, library, key.unit),
        Kind::Net | Kind::Deploy => all_far(alloc, library, key.unit),
    }
}

/// That nothing is read under a name.
fn absent(name: CompactName) -> Read
    ensures seen { seen_of result ≡ record { name = name; found = None } }
    ensures own { IsOwn result }
{
    Read {
        name,
        revision: 0,
        source: None,
    }
}

/// What is read under a name that has a source.
fn present(name: CompactName, revision: u64, source: &Arc<Source>) -> Result<Read, AllocError>
    requires { source.now.value.unit ≡ name }
    ensures seen { IfOk result (λ read. seen_of read ≡ record {
      name = name;
      found = Some (record { revision = revision; text = source.now.value.text });
    }) }
    ensures own { IfOk result IsOwn }
{
    Ok(Read {
        name,
        revision,
        source: Some(source.clone()?),
    })
}

/// What is read under a name, and what is kept of it: all by one search of the library.
fn read_under(
    alloc: Global,
    library: &Library,
    name: Name,
    spot: &mut Spot,
) -> Result<(Read, Option<Arc<Version>>), AllocError>
    ensures seen { IfOk result
        (λ made. seen_of made.0 ≡ record { name = name; found = held library.now name }) }
    ensures own { IfOk result (λ made. IsOwn made.0) }
    ensures kept { IfOk result (λ made. seen_under name (text_of made.1) ≡ seen_of made.0) }
{
    let kept = CompactName::keep(alloc, &name)?;
    let Some(filed) = library.filed_near(&name, spot) else {
        return Ok((absent(kept), None));
    };
    let version = filed.version().clone()?;
    let read = present(kept, filed.revision(), filed.source())?;
    Ok((read, Some(version)))
}

/// What is read under these names, and what is kept of that.
fn read_all(
    alloc: Global,
    library: &Library,
    names: &[Name],
) -> Result<(Vec<Read>, ReadList), AllocError>
    ensures { IfOk result (λ made. AreReadUnder library.now names.now made.0.items made.1) }
{
    let mut reads = Vec::with_capacity(alloc, names.len())?;
    let mut texts = ReadList::with_capacity(alloc, names.len())?;
    let mut spot = Spot::first();
    for name in names {
        let (read, version) = read_under(alloc, library, *name, &mut spot)?;
        reads.push(read)?;
        texts = texts.with(*name, version)?;
    }
    Ok((reads, texts))
}

/// The names under which these were read.
fn names_of(alloc: Global, texts: &TextReads) -> Result<Vec<Name>, AllocError>
    ensures { IfOk result (λ names. names.items ≡ read_names texts.now) }
{
    let mut names = Vec::with_capacity(alloc, texts.len())?;
    for place in 0..texts.len() {
        match texts.get(place) {
            Some(read) => names.push(read.name)?,
            None => unreachable!(),
        }
    }
    Ok(names)
}

/// What is read now under the names of earlier reads, and what is kept of that. None if one of the names mentions something else now; if not, the key still
/// needs the same names.
fn read_again(
    alloc: Global,
    library: &Library,
    before: &Derivation,
) -> Result<Option<(Vec<Read>, ReadList)>, AllocError>
    ensures { IfOk result (λ again. IfSome again
        (λ made. AreReads library.now before.now.key made.0.items made.1)) }
{
    let names = names_of(alloc, before.texts())?;
    let (reads, texts) = read_all(alloc, library, &names)?;
    if !all_mention_the_same(before.texts(), &reads) {
        return Ok(None);
    }
    Ok(Some((reads, texts)))
}

/// What a job for the key reads, by the names that were read for it before, if that serves. Absent names would be counted at each look.
fn reads_as_before(
    alloc: Global,
    library: &Library,
    key: Key,
    previous: &Option<Derivation>,
) -> Result<Option<(Vec<Read>, ReadList)>, AllocError>
    ensures { IfOk result
        (λ again. IfSome again (λ made. AreReads library.now key made.0.items made.1)) }
{
    let Some(derivation) = previous else {
        return Ok(None);
    };
    if derivation.key() != key || derivation.texts().has_absent() {
        return Ok(None);
    }
    read_again(alloc, library, derivation)
}

/// What a job for the key reads, and what is kept of that.
fn reads_for(
    alloc: Global,
    library: &Library,
    key: Key,
    previous: &Option<Derivation>,
) -> Result<(Vec<Read>, ReadList), AllocError>
    ensures { IfOk result (λ made. AreReads library.now key made.0.items made.1) }
{
    // For the proof: the key is named before the call gets it.
    let wanted = key;
    match reads_as_before(alloc, library, wanted, previous)? {
        Some(made) => Ok(made),
        None => {
            let names = needed(alloc, library, key)?;
            read_all(alloc, library, &names)
        }
    }
}

/// What a job for the key reads, and what is kept of that: the texts of a value that the key had, but for those that are replaced, if few are.
pub(crate) fn reads_of(
    alloc: Global,
    library: &Library,
    key: Key,
    previous: &Option<Derivation>,
) -> Result<(Vec<Read>, TextReads), AllocError>
    ensures { IfOk result (λ made. AreReads library.now key made.0.items made.1) }
{
    let (reads, texts) = reads_for(alloc, library, key, previous)?;
    let texts = match previous {
        Some(derivation) => derivation.texts().renewed(alloc, texts)?,
        None => TextReads::of_list(alloc, texts)?,
    };
    Ok((reads, texts))
}
