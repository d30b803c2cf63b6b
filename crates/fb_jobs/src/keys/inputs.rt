//! What jobs work on.
ghost use Rattle.std.specs.{Prelude.{◌≡◌, All, IfErr, IfOk, IfSome}, Option.{option_map}};
ghost use Rattle.fb_deploy.specs.{Library.Texts.{text_at}, Library.Place.{IsAt, IsGapFor}};
ghost use Rattle.fb_jobs.specs.{Finished.{IsJob, plain_job}, Reads.{IsRight, read_names, read_texts}, Values.{all_seen, IsOwn}};

use crate::keys::key::Key;
use crate::keys::read::Read;
use crate::keys::texts::TextReads;
use fb_deploy::library::View;
use fb_deploy::parse::Source;
use fb_text::Name;
use std::marker::Model;
use std::sync::Arc;

/// A key with all that its value depends on: what was read for it, and the texts of that, which the history keeps. A job, its result, and the value that is
/// kept share it.
pub(crate) struct Inputs {
    key: Key,
    reads: Vec<Read>,
    texts: Arc<TextReads>,
}

impl Drop for Inputs {
    fn drop(self) {
        let Self {
            key: _,
            reads: _,
            texts: _,
        } = self;
    }
}

impl Model for Inputs {
    ghost use Rattle.fb_jobs.specs.Reads.{PlainJob};

    ghost Value = { PlainJob };

    ghost use Rattle.fb_jobs.specs.Finished.{plain_job, IsJob};

    ghost view = { λ it. plain_job it.key it.reads.items };

    ghost invariant = { λ it. IsJob it.key it.reads.items it.texts.value };
}

impl Inputs {
    pub(crate) fn new(key: Key, reads: Vec<Read>, texts: Arc<TextReads>) -> Inputs
        requires { IsJob key reads.items texts.value }
        ensures { result ≡ plain_job key reads.items }
    {
        Inputs { key, reads, texts }
    }

    pub(crate) fn key(&self) -> Key
        ensures { result ≡ self.now.key }
    {
        self.key
    }

    pub(crate) fn reads(&self) -> &[Read]
        ensures same { all_seen result.now ≡ self.now.reads }
        ensures right { IsRight self.now }
        ensures own { All IsOwn result.now }
    {
        &self.reads
    }

    /// The texts of the reads.
    pub(crate) fn texts(&self) -> &Arc<TextReads>
        ensures { result.now.value ≡ self.now.reads }
    {
        &self.texts
    }

    /// The place of a name among the reads, or the one at which it would be inserted.
    fn place(&self, name: &Name) -> Result<usize, usize>
        ensures found { IfOk result (IsAt (read_names self.now.reads) name.now) }
        ensures absent { IfErr result (IsGapFor (read_names self.now.reads) name.now) }
    {
        self.reads
            .binary_search_by(|read| read.name.as_str().cmp(name.as_str()))
    }

    /// The source that was read under a name.
    fn find(&self, name: &Name) -> Option<&Source>
        ensures text { option_map (λ it. it.now.text) result
            ≡ text_at (read_texts self.now.reads) name.now }
        ensures own { IfSome result (λ it. it.now.unit ≡ name.now) }
    {
        match self.place(name) {
            Ok(at) => match &self.reads[at].source {
                Some(source) => Some(source),
                None => None,
            },
            Err(_) => None,
        }
    }
}

impl View for Inputs {
    ghost use Rattle.fb_deploy.specs.Library.Texts.{sources_of};
    ghost use Rattle.fb_jobs.specs.Reads.{read_texts};

    ghost sources = { λ inputs. sources_of (read_texts inputs.reads) };

    #[tactic(auto, using(crate::proofs::Sources::get_source))]
    fn get(&self, name: &Name) -> Option<&Source> {
        self.find(name)
    }
}
