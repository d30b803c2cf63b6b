//! Copies of uses of names.
ghost use Rattle.std.specs.Prelude.{◌≡◌, IfOk};

use crate::compact_name::CompactName;
use crate::name::{Name, NameUse};
use crate::place::Place;
use std::alloc::{AllocError, Global};
use std::marker::Model;

/// A copy of a use of a name, as wide as a name is. A contract sees it as the use.
#[derive(Clone, Copy, Debug)]
pub struct WideUse {
    name: Name,
    span: Place,
}

impl Model for WideUse {
    ghost use Rattle.fb_text.specs.declared.name.NameUse.{NameUse as Use};

    ghost Value = { Use };

    ghost view = { λ w. record { name = w.name; span = w.span } };

    ghost inverse = { λ u. record { name = u.name; span = u.span } };
}

impl WideUse {
    /// A name at a place.
    pub fn new(name: Name, span: Place) -> WideUse
        ensures { result ≡ record { name = name; span = span } }
    {
        WideUse { name, span }
    }

    /// A copy of a use.
    pub fn of(used: &NameUse) -> WideUse
        ensures { result ≡ used.now }
    {
        WideUse {
            name: used.name.name(),
            span: used.span,
        }
    }

    /// The name.
    pub fn name(&self) -> &Name
        ensures { result.now ≡ self.now.name }
    {
        &self.name
    }

    /// Its place.
    pub fn place(&self) -> Place
        ensures { result ≡ self.now.span }
    {
        self.span
    }

    /// The use, to be kept.
    pub fn keep(&self, alloc: Global) -> Result<NameUse, AllocError>
        ensures { IfOk result (λ used. used ≡ self.now) }
    {
        Ok(NameUse {
            name: CompactName::keep(alloc, &self.name)?,
            span: self.span,
        })
    }
}
