//! Nets that are kept, and units that are known to be without faults.
ghost use Rattle.std.specs.{Prelude.{◌≡◌, ℕ, Bool, false, List, Option, None, option_map, option_copied}, BTreeMap.{get}};
ghost use Rattle.fb_tree.specs.Text.Order.{name_cmp};
ghost use Rattle.fb_network.specs.Ready as ready;
ghost use Rattle.fb_types.specs.{Hints.{flat_of_hint, is_whole_hint}, Net.{PlainNet, plain_net}, Tables.{known_flats}};

use crate::nets::Net;
use fb_network::{Flat, Nets};
use fb_tree::text::Name;
use std::collections::BTreeMap;

/// Kept nets by the names of their units.
pub trait Hints {
    ghost hints: { Self → (List ℕ → Option PlainNet) };

    /// The net that is kept of a unit.
    fn net_of(&self, name: &Name) -> Option<&Net>
        ensures { option_map plain_net (option_copied result) ≡ hints self.now name.now };
}

/// If no net is kept.
#[derive(Clone, Copy)]
pub struct NoHints;

impl Hints for NoHints {
    ghost hints = { λ s name. None };

    fn net_of(&self, _name: &Name) -> Option<&Net> {
        None
    }
}

/// Units that are known to be present and without faults.
pub trait KnownFaultless {
    ghost faultless: { Self → (List ℕ → Bool) };

    /// Whether the unit of that name is known to be present and without faults.
    fn is_faultless(&self, name: &Name) -> bool
        ensures { result ≡ faultless self.now name.now };
}

/// Kept nets beside which no unit is known to be without faults.
#[derive(Clone, Copy)]
pub struct HintsOnly<'a, H> {
    pub hints: &'a H,
}

impl<H: Hints> Hints for HintsOnly<'_, H> {
    ghost hints = { λ s name. H.hints s.hints.now name };

    fn net_of(&self, name: &Name) -> Option<&Net> {
        self.hints.net_of(name)
    }
}

impl<H: Hints> KnownFaultless for HintsOnly<'_, H> {
    ghost faultless = { λ s name. false };

    fn is_faultless(&self, _name: &Name) -> bool {
        false
    }
}

fn kept_flat<'a, H: Hints>(hints: &'a H, name: &Name) -> Option<&'a Flat>
    ensures { option_copied result ≡ flat_of_hint (H.hints hints.now name.now) }
{
    match hints.net_of(name) {
        Some(Net::Flat(flat)) => Some(flat),
        _ => None,
    }
}

/// The flat networks among kept nets, and those that are composed beside them.
#[derive(Clone, Copy)]
pub struct CachedFlats<'a, H> {
    pub hints: &'a H,
    pub composed: &'a BTreeMap<Name, Flat>,
}

impl<H: Hints> Nets for CachedFlats<'_, H> {
    ghost nets = { λ s. known_flats (H.hints s.hints.now) (get name_cmp s.composed.now) };

    fn net(&self, name: &Name) -> Option<&Flat> {
        match kept_flat(self.hints, name) {
            Some(flat) => Some(flat),
            None => self.composed.get(name),
        }
    }
}

/// Whether the kept net of the unit shows that it is not blocked, and that none of what it rests on reaches itself.
pub fn is_known_whole<H: Hints>(hints: &H, name: &Name) -> bool
    ensures { result ≡ is_whole_hint (H.hints hints.now name.now) }
{
    match hints.net_of(name) {
        Some(Net::TooLarge | Net::Flat(_)) => true,
        Some(Net::Blocked(_) | Net::Recursive(_)) | None => false,
    }
}
