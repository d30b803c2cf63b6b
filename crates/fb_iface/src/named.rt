//! What declares a name.
ghost use Rattle.std.specs.Prelude.{◌≡◌};
ghost use Rattle.fb_tree.specs.Text.declared.name.NameUse.{NameUse as Use};
ghost use Rattle.fb_iface.specs.Names.{is_same};

use fb_tree::text::{Name, WideUse, same_name};
use fb_tree::{Algorithm, Application, Device, Event, Instance, Parameter, Resource, State};

/// What declares a name.
pub trait Named {
    ghost name_of: { Self → Use };

    /// The name with the place of its declaration.
    fn name(&self) -> WideUse
        ensures { result ≡ name_of self.now };

    /// Whether it declares this name.
    fn is_named(&self, name: &Name) -> bool
        ensures { result ≡ is_same (name_of self.now).name name.now };
}

impl Named for WideUse {
    ghost name_of = { λ n. n };

    fn name(&self) -> WideUse {
        *self
    }

    fn is_named(&self, name: &Name) -> bool {
        same_name(WideUse::name(self), name)
    }
}

impl Named for Event {
    ghost name_of = { λ d. d.name };

    fn name(&self) -> WideUse {
        WideUse::of(&self.name)
    }

    fn is_named(&self, name: &Name) -> bool {
        self.name.name.is(name)
    }
}

impl Named for State {
    ghost name_of = { λ d. d.name };

    fn name(&self) -> WideUse {
        WideUse::of(&self.name)
    }

    fn is_named(&self, name: &Name) -> bool {
        self.name.name.is(name)
    }
}

impl Named for Algorithm {
    ghost name_of = { λ d. d.name };

    fn name(&self) -> WideUse {
        WideUse::of(&self.name)
    }

    fn is_named(&self, name: &Name) -> bool {
        self.name.name.is(name)
    }
}

impl Named for Instance {
    ghost name_of = { λ d. d.name };

    fn name(&self) -> WideUse {
        WideUse::of(&self.name)
    }

    fn is_named(&self, name: &Name) -> bool {
        self.name.name.is(name)
    }
}

impl Named for Parameter {
    ghost name_of = { λ d. d.name };

    fn name(&self) -> WideUse {
        WideUse::of(&self.name)
    }

    fn is_named(&self, name: &Name) -> bool {
        self.name.name.is(name)
    }
}

impl Named for Application {
    ghost name_of = { λ d. d.name };

    fn name(&self) -> WideUse {
        WideUse::of(&self.name)
    }

    fn is_named(&self, name: &Name) -> bool {
        self.name.name.is(name)
    }
}

impl Named for Device {
    ghost name_of = { λ d. d.name };

    fn name(&self) -> WideUse {
        WideUse::of(&self.name)
    }

    fn is_named(&self, name: &Name) -> bool {
        self.name.name.is(name)
    }
}

impl Named for Resource {
    ghost name_of = { λ d. d.name };

    fn name(&self) -> WideUse {
        WideUse::of(&self.name)
    }

    fn is_named(&self, name: &Name) -> bool {
        self.name.name.is(name)
    }
}
