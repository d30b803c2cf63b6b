//! Lists of the texts of reads.
//! Absent names are in a separate list, so that thousands of them take no allocation each.
ghost use Rattle.std.specs.Prelude.{◌≡◌, count_by, is_none};

use crate::keys::texts::TextRead;
use crate::values::same::{are_equal, are_same_texts};
use fb_deploy::library::Version;
use fb_text::Name;
use std::alloc::{AllocError, Global};
use std::marker::Model;
use std::sync::Arc;

/// The texts of reads, in their order, without the trees that they spell. Each is shared with all that keep it, so that a read of a text takes 16 bytes here.
pub(crate) struct ReadList {
    versions: Vec<Option<Arc<Version>>>,
    // the names of the reads without a text, in the same order
    absent: Vec<Name>,
}

impl Drop for ReadList {
    fn drop(self) {
        let Self {
            versions: _,
            absent: _,
        } = self;
    }
}

const _: () = prove!(size_of::<Option<Arc<Version>>>() == 16);

impl Model for ReadList {
    ghost use Rattle.std.specs.Prelude.{List, map};
    ghost use Rattle.fb_jobs.specs.Reads.{Seen};

    ghost Value = { List Seen };

    ghost use Rattle.fb_jobs.specs.Texts.{text_of, texts_seen, AreNamed};

    ghost view = { λ it. texts_seen it.versions.items it.absent.items };

    ghost invariant = { λ it. AreNamed (map text_of it.versions.items) it.absent.items };
}

impl ReadList {
    ghost use Rattle.std.specs.{Prelude.{◌≡◌, ◌++◌, ◌↔◌, ◌∷◌, [], IfOk, IfSome, IsTrue, Some, length, slice_get}, Option.{option_map}};
    ghost use Rattle.fb_jobs.specs.{Library.Filed.{filed_text}, Texts.{seen_under, text_of, there}, Values.{text_seen}};

    /// None yet, with room for this number.
    pub(crate) fn with_capacity(alloc: Global, count: usize) -> Result<ReadList, AllocError>
        ensures { IfOk result (λ texts. texts ≡ []) }
    {
        Ok(ReadList {
            versions: Vec::with_capacity(alloc, count)?,
            absent: Vec::new(alloc),
        })
    }

    /// These, and after them what was read under a name.
    pub(crate) fn with(
        self,
        name: Name,
        version: Option<Arc<Version>>,
    ) -> Result<ReadList, AllocError>
        ensures { IfOk result (λ texts. texts ≡ self ++ seen_under name (text_of version) ∷ []) }
    {
        let ReadList {
            mut versions,
            mut absent,
        } = self;
        if version.is_none() {
            absent.push(name)?;
        }
        versions.push(version)?;
        Ok(ReadList { versions, absent })
    }

    /// The text that was read at a place, to be shared. None if the name is absent.
    pub(crate) fn version(&self, place: usize) -> Option<&Arc<Version>>
        ensures { IfSome result
            (λ version. slice_get self.now place ≡ Some (there (filed_text version.now.value))) }
    {
        match self.versions.get(place) {
            Some(Some(version)) => Some(version),
            _ => None,
        }
    }

    /// How many names were read.
    pub(crate) fn len(&self) -> usize
        ensures { result ≡ length self.now }
    {
        self.versions.len()
    }

    /// Whether there is a name without a text.
    pub(crate) fn has_absent(&self) -> bool {
        !self.absent.is_empty()
    }

    /// What was read at a place, counted from 0. It passes over those before it.
    pub(crate) fn get(&self, place: usize) -> Option<TextRead<'_>>
        ensures { option_map text_seen result ≡ slice_get self.now place }
    {
        match self.versions.get(place) {
            None => None,
            Some(Some(version)) => Some(TextRead {
                name: version.unit,
                version: Some(version),
            }),
            Some(None) => Some(TextRead {
                name: self.absent[absent_count(&self.versions[..place])],
                version: None,
            }),
        }
    }

    /// Whether the same was read, by content: under the same names the same texts with the same revisions.
    pub(crate) fn is_same(&self, other: &ReadList) -> bool
        ensures { IsTrue result ↔ (self.now ≡ other.now) }
    {
        are_same_texts(&self.versions, &other.versions) && are_equal(&self.absent, &other.absent)
    }
}

/// How many of these are absent.
fn absent_count(versions: &[Option<Arc<Version>>]) -> usize
    ensures { result ≡ count_by is_none versions.now }
{
    let mut count = 0;
    for version in versions {
        if version.is_none() {
            count += 1;
        }
    }
    count
}
