//! The keys of entries.
ghost use Rattle.std.specs.{Prelude.{◌≡◌, refl}, Ordering.{eq_by_cmp, as_partial_cmp}};
ghost use Rattle.std.specs.Cmp.{eq_by_cmp_equiv, partial_equiv_from_equiv, partial_order_from_total};
ghost use Rattle.fb_jobs.specs.{KeyOrder.{kind_number, key_cmp, key_cmp_total}, Kinds.{needs_all}};

use fb_text::Name;
use std::cmp::Ordering;

/// What an entry shows of its unit.
#[derive(Clone, Copy, Debug, PartialEq, Eq)]
pub enum Kind {
    Faults,
    Net,
    Deploy,
}

impl Kind {
    /// The place of the kind in the order of kinds.
    pub fn number(self) -> u8
        ensures { result ≡ kind_number self }
    {
        match self {
            Kind::Faults => 0,
            Kind::Net => 1,
            Kind::Deploy => 2,
        }
    }

    /// Whether a key of the kind needs all that its unit rests on.
    pub fn needs_all(self) -> bool
        ensures { result ≡ needs_all self }
    {
        match self {
            Kind::Faults => false,
            Kind::Net | Kind::Deploy => true,
        }
    }
}

/// Names an entry. Keys are ordered by their kinds, and those of one kind by the names of their units.
#[derive(Clone, Copy, Debug)]
pub struct Key {
    pub kind: Kind,
    pub unit: Name,
}

impl PartialEq for Key {
    ghost eq = { eq_by_cmp key_cmp };

    ghost laws = { partial_equiv_from_equiv (eq_by_cmp_equiv key_cmp_total) };

    fn eq(&self, other: &Key) -> bool {
        self.cmp(other).is_eq()
    }
}

impl Eq for Key {
    ghost laws = { eq_by_cmp_equiv key_cmp_total };
}

impl PartialOrd for Key {
    ghost partial_cmp = { as_partial_cmp key_cmp };

    ghost laws = { partial_order_from_total key_cmp_total };

    fn partial_cmp(&self, other: &Key) -> Option<Ordering> {
        Some(self.cmp(other))
    }
}

impl Ord for Key {
    ghost cmp = { key_cmp };

    ghost total = { key_cmp_total };

    ghost matches_partial_cmp = { λ a b. refl };

    ghost matches_eq = { λ a b. refl };

    fn cmp(&self, other: &Key) -> Ordering {
        match self.kind.number().cmp(&other.kind.number()) {
            Ordering::Equal => self.unit.cmp(&other.unit),
            unequal => unequal,
        }
    }
}
