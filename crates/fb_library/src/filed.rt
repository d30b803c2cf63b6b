//! What is filed under the name of a unit.
//! Text and revision are shared apart from the source, so that jobs and histories keep them without the tree, 16 bytes a read.
ghost use Rattle.std.specs.{Prelude.{◌≡◌, IfOk}, Option.{option_map}};
ghost use Rattle.fb_parse.specs.Body.{body_tree};
ghost use Rattle.fb_tree.specs.Mentions.{unit_kind_of};
ghost use Rattle.fb_library.specs.{Filed.{filed_text}, View.{tree_in, tree_of}};

use fb_parse::text::Name;
use fb_parse::{Body, Source, TextWithMentions};
use fb_tree::{UnitKind, kind};
use std::alloc::{AllocError, Global};
use std::marker::Model;
use std::sync::Arc;

/// The text of a unit as a commit put it, without the tree that it spells.
pub struct Version {
    pub unit: Name,
    /// The number of the commit.
    pub revision: u64,
    pub text: Arc<TextWithMentions>,
}

impl Drop for Version {
    fn drop(self) {
        let Self {
            unit: _,
            revision: _,
            text: _,
        } = self;
    }
}

/// What is kept of a unit: its source, and beside it what may be kept longer than that. Both are shared.
pub struct Filed {
    // what the version and the source say too, which are seldom in the cache
    revision: u64,
    kind: Option<UnitKind>,
    version: Arc<Version>,
    source: Arc<Source>,
}

impl Drop for Filed {
    fn drop(self) {
        let Self {
            revision: _,
            kind: _,
            version: _,
            source: _,
        } = self;
    }
}

impl Model for Filed {
    ghost use Rattle.fb_library.specs.Texts.{FiledText};

    ghost Value = { FiledText };

    ghost use Rattle.fb_library.specs.Filed.{filed_text, IsFiled};

    ghost view = { λ it. filed_text it.version.value };

    ghost invariant = { λ it. IsFiled it.source.value it.revision it.kind (filed_text it.version.value) };
}

/// The kind of what a text declares, if the text is not broken.
fn kind_in(body: &Body) -> Option<UnitKind>
    ensures { result ≡ option_map unit_kind_of (tree_in (body_tree body.now)) }
{
    match body {
        Body::Tree(decl) => Some(kind(decl)),
        Body::Broken(_) => None,
    }
}

impl Filed {
    /// A source that the commit of this number puts.
    pub(crate) fn new(
        alloc: Global,
        revision: u64,
        source: Arc<Source>,
    ) -> Result<Filed, AllocError>
        ensures { IfOk result (λ filed. filed ≡ record {
          unit = source.value.unit;
          held = record { revision = revision; text = source.value.text };
        }) }
    {
        let unit = source.unit();
        let text = source.text_with_mentions().clone()?;
        let version = Version {
            unit,
            revision,
            text,
        };
        let version = Arc::new(alloc, version)?;
        let kind = kind_in(source.body());
        Ok(Filed {
            revision,
            kind,
            version,
            source,
        })
    }

    /// The number of the commit that put it.
    pub fn revision(&self) -> u64
        ensures { result ≡ self.now.held.revision }
    {
        self.revision
    }

    /// The kind of the unit; None if the text is broken.
    pub fn kind(&self) -> Option<UnitKind>
        ensures { result ≡ option_map unit_kind_of (tree_of self.now.held.text) }
    {
        self.kind
    }

    /// The source, to be shared.
    pub fn source(&self) -> &Arc<Source>
        ensures { result.now.value ≡ record { unit = self.now.unit; text = self.now.held.text } }
    {
        &self.source
    }

    /// The text with its revision, to be shared by all that keep it without the tree.
    pub fn version(&self) -> &Arc<Version>
        ensures { filed_text result.now.value ≡ self.now }
    {
        &self.version
    }
}
