//! References to variables. They take little memory, since a text has many.
ghost use Rattle.std.specs.Prelude.{◌≡◌, IfOk};
ghost use Rattle.fb_tree.specs.{Expression.{reference_tree}, Reference.{first_use, further_names}};

use fb_text::{Name, NameUse, Place};
use std::alloc::{AllocError, Global};

/// A further name of a reference, with the number of its subscripts.
#[derive(Debug)]
pub struct Member {
    pub name: NameUse,
    pub subscripts: usize,
}

impl Drop for Member {
    fn drop(self) {
        let Self {
            name: _,
            subscripts: _,
        } = self;
    }
}

/// The names of a reference. Most have one.
#[derive(Debug)]
pub enum ReferenceNames {
    One(NameUse),
    /// The first name, and the names after it.
    Members(Box<(NameUse, Vec<Member>)>),
}

impl Drop for ReferenceNames {
    fn drop(self) {
        match self {
            Self::One(_) | Self::Members(_) => {}
        }
    }
}

/// One or more names with points between them, and how many subscripts follow each. The
/// subscripts of all names are beside it in one list, in the order of the text.
#[derive(Debug)]
pub struct Reference {
    pub names: ReferenceNames,
    /// How many subscripts follow the first name.
    pub subscripts: usize,
    /// From the first name through the last name or bracket.
    pub span: Place,
}

impl Drop for Reference {
    fn drop(self) {
        let Self {
            names: _,
            subscripts: _,
            span: _,
        } = self;
    }
}

// Each variable that a text uses takes this number of bytes.
const _: () = prove!(size_of::<Reference>() == 56);

impl ReferenceNames {
    /// The first name, and the names after it.
    fn keep(
        alloc: Global,
        first: NameUse,
        members: Vec<Member>,
    ) -> Result<ReferenceNames, AllocError>
        ensures first { IfOk result (λ names. first_use names ≡ first) }
        ensures further { IfOk result (λ names. further_names names ≡ members.items) }
    {
        if members.is_empty() {
            return Ok(ReferenceNames::One(first));
        }
        Ok(ReferenceNames::Members(Box::new(alloc, (first, members))?))
    }
}

impl Reference {
    /// A reference of a name with this number of subscripts and of the names after it, which ends at
    /// a place.
    pub fn new(
        alloc: Global,
        name: NameUse,
        subscripts: usize,
        members: Vec<Member>,
        end: u32,
    ) -> Result<Reference, AllocError>
        ensures { IfOk result
            (λ r. reference_tree r ≡ record {
              name = name;
              subscripts = subscripts;
              members = members.items;
              span = record { start = name.span.start; end = end };
            }) }
    {
        let span = Place::new(name.span.start(), end);
        Ok(Reference {
            names: ReferenceNames::keep(alloc, name, members)?,
            subscripts,
            span,
        })
    }

    /// The first name and its place.
    fn first(&self) -> &NameUse
        ensures { result.now ≡ (reference_tree self.now).name }
    {
        match &self.names {
            ReferenceNames::One(used) => used,
            ReferenceNames::Members(names) => &names.0,
        }
    }

    /// The place of the first name.
    pub fn name_span(&self) -> Place
        ensures { result ≡ (reference_tree self.now).name.span }
    {
        self.first().span
    }

    /// The first name.
    pub fn name(&self) -> Name
        ensures { result ≡ (reference_tree self.now).name.name }
    {
        self.first().name.name()
    }

    /// The names after the first one, in the order of the text.
    pub fn members(&self) -> &[Member]
        ensures { result.now ≡ (reference_tree self.now).members }
    {
        match &self.names {
            ReferenceNames::One(_) => &[],
            ReferenceNames::Members(names) => &names.1,
        }
    }
}
