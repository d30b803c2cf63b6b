//! Types and their names at the places of their uses, lent by the tree that declares them.
ghost use Rattle.std.specs.Prelude.{◌≡◌};

use fb_tree::TypeUse;
use fb_tree::text::NameUse;
use std::marker::Model;

/// A type at the place of its use. A contract sees it as the use.
#[derive(Drop)]
pub struct UsedType<'a> {
    used: &'a TypeUse,
}

impl<'a> Model for UsedType<'a> {
    ghost use Rattle.fb_tree.specs.declared.interface.TypeUse.{TypeUse as Use};

    ghost Value = { Use };

    ghost view = { λ t. t.used.now };
}

impl<'a> UsedType<'a> {
    /// A type at the place of its use.
    pub fn of(used: &'a TypeUse) -> UsedType<'a>
        ensures { result ≡ used.now }
    {
        UsedType { used }
    }

    /// The use.
    pub fn get(&self) -> &'a TypeUse
        ensures { result.now ≡ self.now }
    {
        self.used
    }
}

/// The name of a type at the place of its use. A contract sees it as the use.
#[derive(Drop)]
pub struct UsedName<'a> {
    used: &'a NameUse,
}

impl<'a> Model for UsedName<'a> {
    ghost use Rattle.fb_tree.specs.Text.declared.name.NameUse.{NameUse as Use};

    ghost Value = { Use };

    ghost view = { λ n. n.used.now };
}

impl<'a> UsedName<'a> {
    /// A name at the place of its use.
    pub fn of(used: &'a NameUse) -> UsedName<'a>
        ensures { result ≡ used.now }
    {
        UsedName { used }
    }

    /// The use.
    pub fn get(&self) -> &'a NameUse
        ensures { result.now ≡ self.now }
    {
        self.used
    }
}
