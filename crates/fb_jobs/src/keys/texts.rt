//! What a history keeps of reads.
//! A job for a key that had a value reads nearly always the same texts: it shares the list of that value, and keeps only what differs.
ghost use Rattle.std.specs.{Prelude.{◌≡◌, ◌↔◌, ◌++◌, IfOk, OnOk, IsTrue, Some, List, slice_get, option_copied}, Option.{option_map}};
ghost use Rattle.fb_deploy.specs.Library.Filed.{filed_text};
ghost use Rattle.fb_jobs.specs.{Reads.{Seen}, Replaced.{all_replaced, latest_or, more_replaced, unless_replaced}, Texts.{there}, Values.{text_seen, version_held}};

use crate::keys::read_list::ReadList;
use crate::values::same::is_one_name;
use fb_deploy::library::Version;
use fb_text::Name;
use std::alloc::{AllocError, Global};
use std::marker::Model;
use std::sync::Arc;

/// With this number of replacements a new list is kept.
const MOST_REPLACEMENTS: usize = 8;

/// What was read under a name: a text with its revision, or nothing.
#[derive(Clone, Copy)]
pub struct TextRead<'a> {
    pub name: Name,
    pub version: Option<&'a Version>,
}

/// A text in place of one that was read before.
#[derive(Drop)]
pub(crate) struct Replacement {
    pub(crate) place: usize,
    pub(crate) version: Arc<Version>,
}

/// The texts of reads, in their order, without the trees that they spell: a list, which is shared, and the texts that replace some of it.
pub struct TextReads {
    list: Arc<ReadList>,
    // later ones replace earlier ones
    replacements: Vec<Replacement>,
}

impl Drop for TextReads {
    fn drop(self) {
        let Self {
            list: _,
            replacements: _,
        } = self;
    }
}

impl Model for TextReads {
    ghost use Rattle.std.specs.Prelude.{List};
    ghost use Rattle.fb_jobs.specs.Reads.{Seen};

    ghost Value = { List Seen };

    ghost use Rattle.fb_jobs.specs.Replaced.{all_replaced};

    ghost view = { λ it. all_replaced it.list.value it.replacements.items };
}

impl TextReads {
    ghost use Rattle.std.specs.Prelude.{◌↔◌, IfOk, IfSome, IsTrue, length, slice_get};

    /// These texts.
    pub(crate) fn of_list(alloc: Global, list: ReadList) -> Result<TextReads, AllocError>
        ensures { IfOk result (λ texts. texts ≡ list) }
    {
        Ok(TextReads {
            list: Arc::new(alloc, list)?,
            replacements: Vec::new(alloc),
        })
    }

    /// How many names were read.
    pub fn len(&self) -> usize
        ensures { result ≡ length self.now }
    {
        self.list.len()
    }

    /// Whether there is a name without a text.
    pub(crate) fn has_absent(&self) -> bool {
        self.list.has_absent()
    }

    /// What was read at a place, counted from 0. It passes over absent names before it.
    pub fn get(&self, place: usize) -> Option<TextRead<'_>>
        ensures { option_map text_seen result ≡ slice_get self.now place }
    {
        match self.list.get(place) {
            None => None,
            Some(first) => match latest(&self.replacements, place) {
                None => Some(first),
                Some(version) => Some(TextRead {
                    name: version.unit,
                    version: Some(version),
                }),
            },
        }
    }

    /// The texts of a list: these, but for those that are replaced, if few are and none is absent, as absent names are counted at each look.
    pub(crate) fn renewed(&self, alloc: Global, list: ReadList) -> Result<TextReads, AllocError>
        ensures { IfOk result (λ texts. texts ≡ list) }
    {
        match self.replacements_for(alloc, &list)? {
            Some(replacements) => self.replaced(alloc, replacements),
            None => TextReads::of_list(alloc, list),
        }
    }

    /// The texts of a list that replace some of these. None if they are not as many, if one is absent, or if too many are replaced.
    fn replacements_for(
        &self,
        alloc: Global,
        list: &ReadList,
    ) -> Result<Option<Vec<Replacement>>, AllocError>
        ensures { IfOk result
            (λ found. IfSome found (λ later. all_replaced self.now later.items ≡ list.now)) }
    {
        if self.len() != list.len() || self.replacements.len() >= MOST_REPLACEMENTS {
            return Ok(None);
        }
        let mut later = Vec::new(alloc);
        for place in 0..list.len() {
            let Some(version) = list.version(place) else {
                return Ok(None);
            };
            let instead = text_instead(&self.get(place), version)?;
            add_replacement(&mut later, place, instead)?;
            if later.len() >= MOST_REPLACEMENTS {
                return Ok(None);
            }
        }
        Ok(Some(later))
    }

    /// These texts but for some, which are replaced.
    fn replaced(&self, alloc: Global, mut later: Vec<Replacement>) -> Result<TextReads, AllocError>
        ensures { IfOk result (λ texts. texts ≡ all_replaced self.now later.items) }
    {
        let mut replacements = shared(alloc, &self.replacements, later.len())?;
        replacements.append(&mut later)?;
        let list = self.list.clone()?;
        Ok(TextReads { list, replacements })
    }

    /// Whether the same was read, by content: under the same names the same texts with the same revisions.
    pub fn is_same(&self, other: &TextReads) -> bool
        ensures { IsTrue result ↔ (self.now ≡ other.now) }
    {
        if self.replacements.is_empty() && other.replacements.is_empty() {
            return self.list.is_same(&other.list);
        }
        self.is_same_by_place(other)
    }

    fn is_same_by_place(&self, other: &TextReads) -> bool
        ensures { IsTrue result ↔ (self.now ≡ other.now) }
    {
        if self.len() != other.len() {
            return false;
        }
        for place in 0..self.len() {
            if !is_same_read(&self.get(place), &other.get(place)) {
                return false;
            }
        }
        true
    }
}

/// The last text that replaces the one at a place, if there is one.
fn latest(replacements: &[Replacement], place: usize) -> Option<&Version>
    ensures { (reads : List Seen) (before : Seen) → slice_get reads place ≡ Some before
        → slice_get (all_replaced reads replacements.now) place
        ≡ Some (latest_or before (option_copied result)) }
{
    match replacements.split_last() {
        None => None,
        Some((last, earlier)) => {
            if last.place == place {
                Some(&last.version)
            } else {
                latest(earlier, place)
            }
        }
    }
}

/// The same replacements, with room for this number of others.
fn shared(
    alloc: Global,
    replacements: &[Replacement],
    more: usize,
) -> Result<Vec<Replacement>, AllocError>
    ensures { IfOk result (λ all. (reads : List Seen)
        → all_replaced reads all.items ≡ all_replaced reads replacements.now) }
{
    let mut all = Vec::with_capacity(alloc, replacements.len().saturating_add(more))?;
    for it in replacements {
        all.push(Replacement {
            place: it.place,
            version: it.version.clone()?,
        })?;
    }
    Ok(all)
}

/// Whether both are the same text with the same revision, or neither is there.
fn is_same_version(a: Option<&Version>, b: Option<&Version>) -> bool
    ensures { IsTrue result
        ↔ (option_map version_held (option_copied a.entry) ≡ option_map version_held (option_copied b.entry)) }
{
    match (a, b) {
        (None, None) => true,
        (Some(a), Some(b)) => a.revision == b.revision && a.text.as_str() == b.text.as_str(),
        _ => false,
    }
}

/// Whether both are reads of the same name and text, or neither is there.
fn is_same_read(a: &Option<TextRead<'_>>, b: &Option<TextRead<'_>>) -> bool
    ensures { IsTrue result ↔ (option_map text_seen a.now ≡ option_map text_seen b.now) }
{
    match (a, b) {
        (None, None) => true,
        (Some(a), Some(b)) => {
            is_one_name(&a.name, &b.name) && is_same_version(a.version, b.version)
        }
        _ => false,
    }
}

/// The text, if it is another than the one that was read.
fn text_instead(
    before: &Option<TextRead<'_>>,
    now: &Arc<Version>,
) -> Result<Option<Arc<Version>>, AllocError>
    ensures { IfOk result (λ instead. (was : Seen) → option_map text_seen before.now ≡ Some was
        → unless_replaced was instead ≡ there (filed_text now.now.value)) }
{
    let read = TextRead {
        name: now.unit,
        version: Some(now),
    };
    if is_same_read(before, &Some(read)) {
        return Ok(None);
    }
    Ok(Some(now.clone()?))
}

/// Adds the text that replaces the one at a place, if there is one.
fn add_replacement(
    replacements: &mut Vec<Replacement>,
    place: usize,
    text: Option<Arc<Version>>,
) -> Result<(), AllocError>
    ensures { OnOk result (replacements.new.items ≡ more_replaced replacements.old.items place text) }
{
    if let Some(version) = text {
        replacements.push(Replacement { place, version })?;
    }
    Ok(())
}
