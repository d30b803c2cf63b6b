//! Values with the reads that gave them.
ghost use Rattle.std.specs.Prelude.{◌≡◌, IfOk, IfSome, Some};
ghost use Rattle.fb_jobs.specs.{Cached.{some_faults}, Finished.{value_of}, Reads.{IsRight}, Values.{finding_of}};

use crate::keys::inputs::Inputs;
use crate::keys::key::Key;
use crate::keys::texts::TextReads;
use crate::values::value::Value;
use std::alloc::AllocError;
use std::marker::Model;
use std::sync::Arc;

/// A value of a key, with the texts of the reads that give it. A net or a plan also keeps what was read, with the trees, since it may be left as it is.
pub struct Derivation {
    key: Arc<Key>,
    texts: Arc<TextReads>,
    value: Arc<Value>,
    // beside the value, which is seldom in the cache when a job asks this of each of its reads
    has_faults: Option<bool>,
    inputs: Option<Arc<Inputs>>,
}

impl Drop for Derivation {
    fn drop(self) {
        let Self {
            key: _,
            texts: _,
            value: _,
            has_faults: _,
            inputs: _,
        } = self;
    }
}

impl Model for Derivation {
    ghost use Rattle.fb_jobs.specs.Reads.{PlainJob};

    ghost Value = { PlainJob };

    ghost use Rattle.fb_jobs.specs.Finished.{IsDerivation};

    ghost view = { λ it. record { key = it.key.value; reads = it.texts.value } };

    ghost invariant = { λ it. IsDerivation (record { key = it.key.value; reads = it.texts.value }) it.value.value it.has_faults it.inputs };
}

impl Derivation {
    pub(crate) fn new(
        key: Arc<Key>,
        texts: Arc<TextReads>,
        value: Arc<Value>,
        inputs: Option<Arc<Inputs>>,
    ) -> Derivation
        requires right { IsRight (record { key = key.value; reads = texts.value }) }
        requires value { finding_of value.value ≡ value_of (record { key = key.value; reads = texts.value }) }
        requires inputs { IfSome inputs (λ kept. kept.value ≡ record { key = key.value; reads = texts.value }) }
        ensures { result ≡ record { key = key.value; reads = texts.value } }
    {
        let has_faults = has_faults(&value);
        Derivation {
            key,
            texts,
            value,
            has_faults,
            inputs,
        }
    }

    /// The same value of the same reads.
    pub fn share(&self) -> Result<Derivation, AllocError>
        ensures { IfOk result (λ made. made ≡ self.now) }
    {
        let key = self.key.clone()?;
        let texts = self.texts.clone()?;
        let value = self.value.clone()?;
        let inputs = match &self.inputs {
            Some(inputs) => Some(inputs.clone()?),
            None => None,
        };
        Ok(Derivation {
            key,
            texts,
            value,
            has_faults: self.has_faults,
            inputs,
        })
    }

    /// What was read, of a net or a plan.
    pub(crate) fn inputs(&self) -> Option<&Inputs>
        ensures { IfSome result (λ inputs. inputs.now ≡ self.now) }
    {
        match &self.inputs {
            Some(inputs) => Some(inputs),
            None => None,
        }
    }

    pub(crate) fn key(&self) -> Key
        ensures { result ≡ self.now.key }
    {
        *self.key
    }

    pub(crate) fn texts(&self) -> &TextReads
        ensures same { result.now ≡ self.now.reads }
        ensures right { IsRight self.now }
    {
        &self.texts
    }

    /// The value that the reads give from scratch.
    pub fn value(&self) -> &Arc<Value>
        ensures { finding_of result.now.value ≡ value_of self.now }
    {
        &self.value
    }

    /// Whether there are faults. None for a net or a plan.
    pub fn has_faults(&self) -> Option<bool>
        ensures { result ≡ some_faults (Some (value_of self.now)) }
    {
        self.has_faults
    }
}

/// Whether there are faults. None for a net or a plan.
fn has_faults(value: &Value) -> Option<bool>
    ensures { result ≡ some_faults (Some (finding_of value.now)) }
{
    match value {
        Value::Faults(found) => Some(!found.is_empty()),
        Value::Net(_) | Value::Deploy(_) => None,
    }
}
