//! Jobs.
//! A job gets no earlier value of a key as a hint: `run` gives the previous value of its own key only if all that the key reads leaves it
//! unchanged, or if the new value equals it.
ghost use Rattle.std.specs.Prelude.{◌≡◌, true, IfOk, IfSome, All};
ghost use Rattle.fb_deploy.specs.Library.Texts.{sources_of};
ghost use Rattle.fb_jobs.specs.{Finished.{plain_job}, Hints.{AreHints}, Cache.{AreKept}, Keys.{has_key, scratch}, Cached.{IsCached}};
ghost use Rattle.fb_jobs.specs.{Reads.{IsRight, read_texts, reads_for}, Values.{all_seen, finding_of, IsOwn}, Work.{IsWork}};

use crate::jobs::computed::{Worked, work_of};
use crate::jobs::result::Finished;
use crate::kept::cache::Cache;
use crate::kept::cached::{Cached, CachedNets, flagged_names, nets_of, unless};
use crate::kept::hints::Hint;
use crate::kept::reuse::{are_still_read, is_whole_value};
use crate::keys::inputs::Inputs;
use crate::keys::key::Key;
use crate::keys::read::Read;
use crate::keys::reads::reads_of;
use crate::keys::texts::TextReads;
use crate::values::derivation::Derivation;
use crate::values::value::Value;
use fb_deploy::library::Library;
use std::alloc::{AllocError, Global};
use std::marker::Model;
use std::sync::Arc;

/// A key with all that its value depends on, which the result shares.
pub struct Job {
    inputs: Arc<Inputs>,
    cached: Cached,
    // a value that the key had once, with the reads that gave it, to be shared by a result that equals it
    previous: Option<Derivation>,
}

impl Drop for Job {
    fn drop(self) {
        let Self {
            inputs: _,
            cached: _,
            previous: _,
        } = self;
    }
}

impl Model for Job {
    ghost use Rattle.fb_jobs.specs.Reads.{PlainJob};

    ghost Value = { PlainJob };

    ghost use Rattle.fb_jobs.specs.Cached.{IsCached};

    ghost view = { λ it. it.inputs.value };

    ghost invariant = { λ it. IsCached it.inputs.value.reads it.inputs.value.key it.cached };
}

impl Job {
    /// Reads for the key what it needs, sharing the sources, and passes the nets of these other subapplications, which are not
    /// computed again. A key for faults takes none.
    pub fn make(
        alloc: Global,
        library: &Library,
        key: Key,
        hints: Vec<Hint>,
    ) -> Result<Job, AllocError>
        requires has { has_key library.now key ≡ true }
        requires hints { AreHints library.now key hints.items }
        ensures { IfOk result
            (λ job. job ≡ record { key = key; reads = reads_for library.now key }) }
    {
        // For the proof: the key is named before the call gets it.
        let wanted = key;
        let (reads, texts) = reads_of(alloc, library, wanted, &None)?;
        let cached = Cached::of_hints(alloc, hints);
        Job::of_reads(alloc, key, reads, texts, cached, None)
    }

    /// A job with all that is kept: as hints the nets of other subapplications among the reads; the net of the unit itself, if it is
    /// kept, was found by a job for another key or is blocked by units whose faults are kept; which of the reads are without faults; and
    /// the value that the key had before.
    pub fn for_kept<K: Cache>(
        alloc: Global,
        library: &Library,
        key: Key,
        kept: &K,
    ) -> Result<Job, AllocError>
        requires has { has_key library.now key ≡ true }
        requires kept { AreKept library.now (K.kept kept.now) }
        requires found { AreKept library.now (K.found kept.now) }
        ensures { IfOk result
            (λ job. job ≡ record { key = key; reads = reads_for library.now key }) }
    {
        // For the proof: the key is named before the call gets it.
        let wanted = key;
        let previous = match kept.previous(&key) {
            Some(derivation) => Some(derivation.share()?),
            None => None,
        };
        let (reads, texts) = reads_of(alloc, library, wanted, &previous)?;
        let cached = Cached::of_kept(alloc, kept, &key, &reads, previous.is_none())?;
        Job::of_reads(alloc, key, reads, texts, cached, previous)
    }

    fn of_reads(
        alloc: Global,
        key: Key,
        reads: Vec<Read>,
        texts: TextReads,
        cached: Cached,
        previous: Option<Derivation>,
    ) -> Result<Job, AllocError>
        requires right { IsRight (plain_job key reads.items) }
        requires own { All IsOwn reads.items }
        requires texts { texts ≡ all_seen reads.items }
        requires known { IsCached (all_seen reads.items) key cached }
        ensures { IfOk result (λ job. job ≡ plain_job key reads.items) }
    {
        let texts = Arc::new(alloc, texts)?;
        let inputs = Arc::new(alloc, Inputs::new(key, reads, texts))?;
        Ok(Job {
            inputs,
            cached,
            previous,
        })
    }

    fn inputs(&self) -> &Inputs
        ensures { result.now ≡ self.now }
    {
        &self.inputs
    }

    pub fn key(&self) -> Key
        ensures { result ≡ self.now.key }
    {
        self.inputs().key()
    }

    pub fn reads(&self) -> &[Read]
        ensures same { all_seen result.now ≡ self.now.reads }
        ensures right { IsRight self.now }
        ensures own { All IsOwn result.now }
    {
        self.inputs().reads()
    }

    /// The texts of the reads, to be kept.
    pub fn texts(&self) -> &Arc<TextReads>
        ensures { result.now.value ≡ self.now.reads }
    {
        self.inputs().texts()
    }

    /// The nets of other subapplications that are passed.
    pub fn hints(&self) -> &[Hint]
        ensures { AreHints (read_texts self.now.reads) self.now.key result.now }
    {
        &self.cached.hints
    }

    /// The value that the key had before, if what is read leaves it unchanged: a net that is flat or too large, or a plan of such a net. The text of the
    /// unit must be the same, and all that it rests on without faults, with the same interfaces and mentions.
    fn reusable(&self, alloc: Global) -> Result<Option<&Arc<Value>>, AllocError>
        ensures { IfOk result (λ left. IfSome left
            (λ value. finding_of value.now.value ≡ scratch (read_texts self.now.reads) self.now.key)) }
    {
        let Some(derivation) = &self.previous else {
            return Ok(None);
        };
        let Some(before) = derivation.inputs() else {
            return Ok(None);
        };
        let value = derivation.value();
        let key = self.key();
        if before.key() != key || !is_whole_value(value) {
            return Ok(None);
        }
        let faultless = &self.cached.faultless;
        if are_still_read(alloc, &key.unit, faultless, before.reads(), self.reads())? {
            return Ok(Some(value));
        }
        Ok(None)
    }

    /// Computes the value that the reads give, with what is passed.
    fn computed(&self, alloc: Global) -> Result<Worked, AllocError>
        ensures { IfOk result
            (IsWork self.now.key.kind (sources_of (read_texts self.now.reads)) self.now.key.unit) }
    {
        let own = &self.cached.own;
        let hints = unless(own.is_some(), &self.cached.hints);
        let flags = unless(own.is_some(), &self.cached.faultless);
        let nets = nets_of(alloc, hints)?;
        let faultless = flagged_names(alloc, self.reads(), flags)?;
        let known = CachedNets {
            nets: &nets,
            faultless: &faultless,
        };
        work_of(
            alloc,
            self.inputs(),
            self.key(),
            &known,
            own,
            &self.previous,
        )
    }

    fn worked(&self, alloc: Global) -> Result<Worked, AllocError>
        ensures { IfOk result
            (IsWork self.now.key.kind (sources_of (read_texts self.now.reads)) self.now.key.unit) }
    {
        match self.reusable(alloc)? {
            Some(value) => Ok(Worked {
                value: value.clone()?,
                found: Vec::new(alloc),
            }),
            None => self.computed(alloc),
        }
    }

    /// Computes the value that the reads give. What is passed is not computed again, nor is a net or a plan that what is read leaves unchanged.
    pub fn run(&self, alloc: Global) -> Result<Finished, AllocError>
        ensures { IfOk result (λ finished. finished ≡ self.now) }
    {
        let work = self.worked(alloc)?;
        let inputs = self.inputs.clone()?;
        Ok(Finished::new(inputs, work))
    }
}
