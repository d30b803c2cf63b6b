//! Changes of a library.
ghost use Rattle.std.specs.Prelude.{◌≡◌, IfOk};
ghost use Rattle.fb_library.specs.{Texts.{unit_of}, Changes.{edit_of, edits_of}};

use fb_parse::Source;
use fb_parse::text::Name;
use std::alloc::{AllocError, Global};
use std::sync::Arc;

/// One change of a commit. `base` is the revision that the change was written against, 0 if the
/// unit was absent.
pub enum Change {
    Put { base: u64, source: Arc<Source> },
    Remove { unit: Name, base: u64 },
}

impl Drop for Change {
    fn drop(self) {
        match self {
            Self::Put { base: _, source: _ } | Self::Remove { unit: _, base: _ } => {}
        }
    }
}

impl Change {
    /// The unit that is changed.
    pub fn unit(&self) -> Name
        ensures { result ≡ unit_of (edit_of self.now) }
    {
        match self {
            Change::Put { base: _, source } => source.unit(),
            Change::Remove { unit, base: _ } => *unit,
        }
    }

    /// The same change, sharing its source.
    fn copy(&self) -> Result<Change, AllocError>
        ensures { IfOk result (λ copy. edit_of copy ≡ edit_of self.now) }
    {
        match self {
            Change::Put { base, source } => {
                let source = source.clone()?;
                Ok(Change::Put {
                    base: *base,
                    source,
                })
            }
            Change::Remove { unit, base } => Ok(Change::Remove {
                unit: *unit,
                base: *base,
            }),
        }
    }

    /// The same changes, sharing their sources.
    pub fn copies(alloc: Global, changes: &[Change]) -> Result<Vec<Change>, AllocError>
        ensures { IfOk result (λ copies. edits_of copies.items ≡ edits_of changes.now) }
    {
        let mut copies = Vec::new(alloc);
        for change in changes {
            copies.push(change.copy()?)?;
        }
        Ok(copies)
    }
}
