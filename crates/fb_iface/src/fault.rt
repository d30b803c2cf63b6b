//! Faults in their order.
ghost use Rattle.std.specs.{Prelude.{◌≡◌, IfOk, refl}, Ordering.{eq_by_cmp, as_partial_cmp}};
ghost use Rattle.std.specs.Cmp.{eq_by_cmp_equiv, partial_equiv_from_equiv, partial_order_from_total};
ghost use Rattle.fb_iface.specs.Fault.{fault_at, fault_cmp, fault_cmp_total, faults_in_order};

use crate::code::Code;
use fb_tree::text::{NameUse, Span, sorted_once};
use std::alloc::{AllocError, Global};
use std::cmp::Ordering;

/// A fault and its place. Faults are ordered by their places, and at one place by the numbers of their codes.
#[derive(Clone, Copy, Debug)]
pub struct Fault {
    pub code: Code,
    pub span: Span,
}

impl Fault {
    /// A fault at a name.
    pub fn at(code: Code, name: &NameUse) -> Fault
        ensures { result ≡ fault_at code name.now }
    {
        Fault {
            code,
            span: name.span.span(),
        }
    }
}

impl PartialEq for Fault {
    ghost eq = { eq_by_cmp fault_cmp };

    ghost laws = { partial_equiv_from_equiv (eq_by_cmp_equiv fault_cmp_total) };

    fn eq(&self, other: &Fault) -> bool {
        self.cmp(other).is_eq()
    }
}

impl Eq for Fault {
    ghost laws = { eq_by_cmp_equiv fault_cmp_total };
}

impl PartialOrd for Fault {
    ghost partial_cmp = { as_partial_cmp fault_cmp };

    ghost laws = { partial_order_from_total fault_cmp_total };

    fn partial_cmp(&self, other: &Fault) -> Option<Ordering> {
        Some(self.cmp(other))
    }
}

impl Ord for Fault {
    ghost cmp = { fault_cmp };

    ghost total = { fault_cmp_total };

    ghost matches_partial_cmp = { λ a b. refl };

    ghost matches_eq = { λ a b. refl };

    fn cmp(&self, other: &Fault) -> Ordering {
        let start = self.span.start.cmp(&other.span.start);
        if start.is_ne() {
            return start;
        }
        let end = self.span.end.cmp(&other.span.end);
        let number = self.code.number().cmp(&other.code.number());
        end.then(number)
    }
}

/// The faults in order, each once.
pub fn sorted_faults(alloc: Global, faults: &[Fault]) -> Result<Vec<Fault>, AllocError>
    ensures { IfOk result (λ sorted. sorted.items ≡ faults_in_order faults.now) }
{
    sorted_once(alloc, faults)
}
