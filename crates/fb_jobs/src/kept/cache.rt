//! Values that are kept.
ghost use Rattle.std.specs.Prelude.{◌≡◌, Option, option_map, option_copied};
ghost use Rattle.fb_jobs.specs.{declared.keys.key.Key.{Key}, Cached.{faults_key, some_faults}, Keys.{Finding}, Values.{finding_of}};

use crate::keys::key::Key;
use crate::values::derivation::Derivation;
use crate::values::value::Value;
use fb_text::Name;
use std::sync::Arc;

/// Values that are kept from before, by their keys.
pub trait Cache {
    ghost kept: { Self → (Key → Option Finding) };

    ghost found: { Self → (Key → Option Finding) };

    /// The value that is kept of a key.
    fn value(&self, key: &Key) -> Option<&Arc<Value>>
        ensures { option_map (λ it. finding_of it.value) (option_copied result)
            ≡ kept self.now key.now };

    /// Whether a unit has faults, if that is kept.
    fn has_faults(&self, unit: &Name) -> Option<bool>
        ensures { result ≡ some_faults (kept self.now (faults_key unit.now)) };

    /// The value of a pending key that a job for another key computed on its way.
    fn found(&self, key: &Key) -> Option<&Arc<Value>>
        ensures { option_map (λ it. finding_of it.value) (option_copied result)
            ≡ found self.now key.now };

    /// A value that the key had once, with the reads that gave it: a result that equals it shares it.
    fn previous(&self, key: &Key) -> Option<&Derivation>;
}
