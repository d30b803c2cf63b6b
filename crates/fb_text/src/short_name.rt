//! Short names, which take less memory.
ghost use Rattle.std.specs.{Prelude.{◌≡◌, ◌≤◌, true, length}, Str.{str_to_ascii_uppercase}};
ghost use Rattle.fb_text.specs.{Name.{name_of}, ShortName.{shortened}, Words.{is_word}};

use crate::bytes::word_len;
use crate::name::{Name, NameFault};
use std::fmt;
use std::marker::Model;

/// How many bytes a short name has at most.
pub const SHORT_ROOM: usize = 22;

/// A name of at most 22 bytes. A contract sees it as the list of these bytes.
#[derive(Clone, Copy)]
pub struct ShortName {
    len: u8,
    // The bytes after the first `len` are 0, so equal names have equal fields.
    bytes: [u8; SHORT_ROOM],
}

impl Model for ShortName {
    ghost use Rattle.std.specs.Prelude.{◌-◌, ◌++◌, List, ℕ, length, replicate};
    ghost use Rattle.fb_text.specs.Stored.{IsStoredShort, short_spelling, short_again};

    ghost Value = { List ℕ };

    ghost view = { short_spelling };

    ghost invariant = { IsStoredShort };

    ghost inverse = { λ bytes. record { bytes = bytes ++ replicate (22 - length bytes) 0; len = length bytes } };

    ghost inverse_ok = { short_again };
}

impl ShortName {
    ghost use Rattle.fb_text.specs.Spelling.{IsName};

    /// The name that a short text spells in any case.
    #[tactic(auto, unfolding(crate::specs::Name::name_of))]
    pub(crate) fn read(bytes: &[u8]) -> Result<ShortName, NameFault>
        requires { length bytes.now ≤ 22 }
        ensures { result ≡ name_of bytes.now }
    {
        if bytes.is_empty() {
            return Err(NameFault::Empty);
        }
        let len = word_len(bytes);
        if len < bytes.len() {
            return Err(NameFault::BadByte(len));
        }
        Ok(ShortName::of_word(bytes))
    }

    pub(crate) fn of_word(word: &[u8]) -> ShortName
        requires word { is_word word.now ≡ true }
        requires short { length word.now ≤ 22 }
        ensures { result ≡ str_to_ascii_uppercase word.now }
    {
        let mut bytes = [0; SHORT_ROOM];
        for (i, b) in word.iter().enumerate() {
            bytes[i] = b.to_ascii_uppercase();
        }
        ShortName {
            bytes,
            len: word.len() as u8,
        }
    }

    /// The name.
    pub fn name(&self) -> Name
        ensures { result ≡ self.now }
    {
        Name::of_short(&self.bytes, self.len)
    }

    /// The bytes of the name.
    pub(crate) fn as_bytes(&self) -> &[u8]
        ensures bytes { result.now ≡ self.now }
        ensures name { IsName self.now }
    {
        &self.bytes[..self.len as usize]
    }
}

impl Name {
    /// The name as a short one, if it has at most 22 bytes.
    pub fn shortened(&self) -> Option<ShortName>
        ensures { result ≡ shortened self.now }
    {
        let name = self.as_bytes();
        if name.len() > SHORT_ROOM {
            return None;
        }
        let mut bytes = [0; SHORT_ROOM];
        bytes[..name.len()].copy_from_slice(name);
        Some(ShortName {
            bytes,
            len: name.len() as u8,
        })
    }
}

impl fmt::Debug for ShortName {
    fn fmt<W: fmt::Write>(&self, f: &mut fmt::Formatter<W>) -> fmt::Result {
        fmt::Debug::fmt(&self.name(), f)
    }
}
