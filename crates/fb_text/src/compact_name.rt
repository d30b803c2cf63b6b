//! Names that are kept. Most are short, and take little memory.
ghost use Rattle.std.specs.{Prelude.{◌≡◌, ◌≤◌, IfOk, codes, length, true}, Str.{str_to_ascii_uppercase}, BTreeMap.{is_at}};
ghost use Rattle.fb_text.specs.{Words.{is_word}, Name.{name_of}, Order.{name_cmp}};

use crate::name::{Name, NameFault};
use crate::short_name::{SHORT_ROOM, ShortName};
use std::alloc::{AllocError, Global};
use std::marker::Model;
use std::{fmt, str};

/// A name, which is stored in place if it is short.
#[derive(Drop)]
enum Stored {
    Short(ShortName),
    Long(Box<Name>),
}

/// A name that is kept. A contract sees it as the list of its bytes.
pub struct CompactName {
    stored: Stored,
}

impl Drop for CompactName {
    fn drop(self) {
        let Self { stored: _ } = self;
    }
}

impl Model for CompactName {
    ghost use Rattle.std.specs.Prelude.{List, ℕ};

    ghost Value = { List ℕ };

    ghost use Rattle.fb_text.specs.CompactNames.{compact_name};

    ghost view = { λ n. compact_name n.stored };
}

// Each name of a declaration takes this number of bytes.
const _: () = prove!(size_of::<CompactName>() == 24);

impl CompactName {
    ghost use Rattle.fb_text.specs.Spelling.{IsName};

    /// The name that a text spells in any case.
    pub fn read(alloc: Global, text: &str) -> Result<Result<CompactName, NameFault>, AllocError>
        ensures { IfOk result (λ read. read ≡ name_of text.now) }
    {
        if text.len() > SHORT_ROOM {
            return match Name::read(text) {
                Ok(name) => Ok(Ok(CompactName::keep(alloc, &name)?)),
                Err(fault) => Ok(Err(fault)),
            };
        }
        match ShortName::read(text.as_bytes()) {
            Ok(short) => Ok(Ok(CompactName {
                stored: Stored::Short(short),
            })),
            Err(fault) => Ok(Err(fault)),
        }
    }

    /// The name that a word spells in any case.
    pub fn of_word(alloc: Global, word: &str) -> Result<CompactName, AllocError>
        requires word { is_word word.now ≡ true }
        requires short { length word.now ≤ 64 }
        ensures { IfOk result (λ name. name ≡ str_to_ascii_uppercase word.now) }
    {
        let stored = if word.len() > SHORT_ROOM {
            Stored::Long(Box::new(alloc, Name::of_word(word.as_bytes()))?)
        } else {
            Stored::Short(ShortName::of_word(word.as_bytes()))
        };
        Ok(CompactName { stored })
    }

    /// The name `_`.
    pub fn underscore() -> CompactName
        ensures { result ≡ codes "_" }
    {
        CompactName {
            stored: Stored::Short(ShortName::of_word(b"_")),
        }
    }

    /// Keeps a name.
    pub fn keep(alloc: Global, name: &Name) -> Result<CompactName, AllocError>
        ensures { IfOk result (λ kept. kept ≡ name.now) }
    {
        let stored = match name.shortened() {
            Some(short) => Stored::Short(short),
            None => Stored::Long(Box::new(alloc, *name)?),
        };
        Ok(CompactName { stored })
    }

    /// The name.
    pub fn name(&self) -> Name
        ensures { result ≡ self.now }
    {
        match &self.stored {
            Stored::Short(name) => name.name(),
            Stored::Long(name) => **name,
        }
    }

    /// The bytes of the name.
    fn as_bytes(&self) -> &[u8]
        ensures bytes { result.now ≡ self.now }
        ensures name { IsName self.now }
    {
        match &self.stored {
            Stored::Short(name) => name.as_bytes(),
            Stored::Long(name) => name.as_bytes(),
        }
    }

    /// The text of the name, in upper case.
    pub fn as_str(&self) -> &str
        ensures text { result.now ≡ self.now }
        ensures name { IsName self.now }
    {
        // SAFETY: the bytes of a name are letters, digits and `_`, which are ASCII.
        unsafe { str::from_utf8_unchecked(self.as_bytes()) }
    }

    /// Whether it is this name.
    #[tactic(auto, using(crate::proofs::OrderLemmas::same_name))]
    pub fn is(&self, name: &Name) -> bool
        ensures { result ≡ is_at (name_cmp self.now) name.now }
    {
        self.as_bytes() == name.as_bytes()
    }
}

impl Clone for CompactName {
    ghost is_clone = { λ name copy. copy ≡ name };

    fn clone(&self) -> Result<CompactName, AllocError> {
        let stored = match &self.stored {
            Stored::Short(name) => Stored::Short(*name),
            Stored::Long(name) => Stored::Long(name.clone()?),
        };
        Ok(CompactName { stored })
    }
}

impl fmt::Debug for CompactName {
    fn fmt<W: fmt::Write>(&self, f: &mut fmt::Formatter<W>) -> fmt::Result {
        fmt::Debug::fmt(self.as_str(), f)
    }
}
