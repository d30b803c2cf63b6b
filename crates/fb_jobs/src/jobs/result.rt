//! Results of jobs.
ghost use Rattle.std.specs.Prelude.{◌≡◌, All, IfOk};
ghost use Rattle.fb_jobs.specs.{Finished.{IsFinished}, Keys.{scratch}, Reads.{IsRight, read_texts}, Values.{all_seen, finding_of, IsOwn}};
ghost use Rattle.fb_jobs.specs.Work.{IsFoundFor};

use crate::jobs::computed::Worked;
use crate::kept::hints::Hint;
use crate::keys::inputs::Inputs;
use crate::keys::key::Key;
use crate::keys::read::Read;
use crate::keys::texts::TextReads;
use crate::values::derivation::Derivation;
use crate::values::value::Value;
use std::alloc::AllocError;
use std::marker::Model;
use std::sync::Arc;

/// The result of a job: its value is that of its own reads.
pub struct Finished {
    inputs: Arc<Inputs>,
    work: Worked,
}

impl Drop for Finished {
    fn drop(self) {
        let Self { inputs: _, work: _ } = self;
    }
}

impl Model for Finished {
    ghost use Rattle.fb_jobs.specs.Reads.{PlainJob};

    ghost Value = { PlainJob };

    ghost use Rattle.fb_jobs.specs.Finished.{IsFinished};

    ghost view = { λ it. it.inputs.value };

    ghost invariant = { λ it. IsFinished it.inputs.value it.work };
}

impl Finished {
    pub(crate) fn new(inputs: Arc<Inputs>, work: Worked) -> Finished
        requires { IsFinished inputs.value work }
        ensures { result ≡ inputs.value }
    {
        Finished { inputs, work }
    }

    pub fn key(&self) -> Key
        ensures { result ≡ self.now.key }
    {
        self.inputs.key()
    }

    pub fn reads(&self) -> &[Read]
        ensures same { all_seen result.now ≡ self.now.reads }
        ensures right { IsRight self.now }
        ensures own { All IsOwn result.now }
    {
        self.inputs.reads()
    }

    /// The texts of the reads, to be kept.
    pub fn texts(&self) -> &Arc<TextReads>
        ensures { result.now.value ≡ self.now.reads }
    {
        self.inputs.texts()
    }

    /// The value that its reads give from scratch.
    pub fn value(&self) -> &Arc<Value>
        ensures { finding_of result.now.value ≡ scratch (read_texts self.now.reads) self.now.key }
    {
        &self.work.value
    }

    /// The value with the texts that give it, under a share of the key.
    pub fn derivation(&self, key: Arc<Key>) -> Result<Derivation, AllocError>
        requires { key.value ≡ self.now.key }
        ensures { IfOk result (λ made. made ≡ self.now) }
    {
        // For the proof: the reads are right for the key.
        let _reads = self.reads();
        let texts = self.texts().clone()?;
        let value = self.work.value.clone()?;
        let inputs = match self.key().kind.needs_all() {
            true => Some(self.inputs.clone()?),
            false => None,
        };
        Ok(Derivation::new(key, texts, value, inputs))
    }

    /// The nets of other units that were computed on the way, from scratch by the same reads.
    pub fn found(&self) -> &[Hint]
        ensures { All (IsFoundFor (read_texts self.now.reads) self.now.key) result.now }
    {
        &self.work.found
    }
}
