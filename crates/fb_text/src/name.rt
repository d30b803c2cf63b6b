//! Names, which are compared in upper case.
ghost use Rattle.std.specs.Prelude.{◌≡◌, ℕ, ◌+◌, ◌-◌, ◌≤◌, ◌<◌, true, List, [], ◌∷◌, ◌++◌, length, take, drop, replicate, Some, IsOk, ◌↔◌, nat_eq, refl};
ghost use Rattle.std.specs.{Str.{str_to_ascii_uppercase}, Ordering.{nat_cmp}, Cmp.{partial_equiv_from_equiv}};
ghost use Rattle.std.specs.{Cmp.Lexicographic.{pointwise, slice_cmp, nat_list_eq_equiv, nat_list_cmp_total, texts_po, texts_ties}, Cmp.Rules.{hashing}};
ghost use Rattle.std.specs.Hash as fed;
ghost use Rattle.std.proofs.Common.{rules};
ghost use Rattle.fb_text.specs.Words.{is_word};

use crate::bytes::word_len;
use crate::compact_name::CompactName;
use crate::eight::eight_from;
use crate::place::Place;
use crate::short_name::SHORT_ROOM;
use std::alloc::AllocError;
use std::cmp::Ordering;
use std::hash::{Hash, Hasher};
use std::marker::Model;
use std::{fmt, str};

/// Why a text is no name.
#[derive(Clone, Copy, Debug, PartialEq, Eq)]
pub enum NameFault {
    /// The text is empty.
    Empty,
    /// The place of the first byte that no name has there.
    BadByte(usize),
    /// The text has more than 64 bytes.
    TooLong,
}

/// A name in upper case, ordered by its bytes. A contract sees it as the list of these bytes.
#[derive(Clone, Copy)]
pub struct Name {
    // The bytes after the first `len` are 0, so equal names have equal fields.
    bytes: [u8; 64],
    len: u8,
}

/// A name and its place.
#[derive(Debug)]
pub struct NameUse {
    pub name: CompactName,
    pub span: Place,
}

impl Drop for NameUse {
    fn drop(self) {
        let Self { name: _, span: _ } = self;
    }
}

// Each use of a name in a declaration takes this number of bytes.
const _: () = prove!(size_of::<NameUse>() == 32);

impl Model for Name {
    ghost use Rattle.std.specs.Prelude.{◌≡◌, ◌≤◌, ◌-◌, ◌++◌, List, ℕ, length, take, drop, replicate};
    ghost use Rattle.std.proofs.Common.{arith, take-append-drop, length-take-le};

    ghost Value = { List ℕ };

    ghost use Rattle.fb_text.specs.Stored.{IsStored, spelling, stored_again};

    ghost view = { spelling };

    ghost invariant = { IsStored };

    ghost inverse = { λ bytes. record { bytes = bytes ++ replicate (64 - length bytes) 0; len = length bytes } };

    ghost inverse_ok = { stored_again };
}

impl Name {
    ghost use Rattle.std.specs.Prelude.{codes};
    ghost use Rattle.fb_text.specs.{Spelling.{IsName}, Stored.{IsStoredIn}, Name.{name_of}};

    /// The name that a text spells in any case.
    pub fn read(text: &str) -> Result<Name, NameFault>
        ensures exact { result ≡ name_of text.now }
        ensures names { IsOk result ↔ ((is_word text.now ≡ true) × (length text.now ≤ 64)) }
    {
        Name::of_text(text.as_bytes())
    }

    #[tactic(auto, unfolding(crate::specs::Name::name_of))]
    fn of_text(bytes: &[u8]) -> Result<Name, NameFault>
        ensures { result ≡ name_of bytes.now }
    {
        if bytes.is_empty() {
            return Err(NameFault::Empty);
        }
        let len = word_len(bytes);
        if len < bytes.len() {
            return Err(NameFault::BadByte(len));
        }
        if bytes.len() > 64 {
            return Err(NameFault::TooLong);
        }
        Ok(Name::of_word(bytes))
    }

    pub(crate) fn of_word(word: &[u8]) -> Name
        requires word { is_word word.now ≡ true }
        requires short { length word.now ≤ 64 }
        ensures { result ≡ str_to_ascii_uppercase word.now }
    {
        let mut bytes = [0; 64];
        for (i, b) in word.iter().enumerate() {
            bytes[i] = b.to_ascii_uppercase();
        }
        Name {
            bytes,
            len: word.len() as u8,
        }
    }

    /// The name `_`.
    pub fn underscore() -> Name
        ensures { result ≡ codes "_" }
    {
        Name::of_word(b"_")
    }

    /// The name of this length at the beginning of bytes that are zeros after it.
    pub(crate) fn of_short(short: &[u8; SHORT_ROOM], len: u8) -> Name
        requires { IsStoredIn 22 short.now len }
        ensures { result ≡ take len short.now }
    {
        let mut bytes = [0; 64];
        bytes[..SHORT_ROOM].copy_from_slice(short);
        Name { bytes, len }
    }

    /// The bytes of the name.
    pub(crate) fn as_bytes(&self) -> &[u8]
        ensures bytes { result.now ≡ self.now }
        ensures name { IsName self.now }
    {
        &self.bytes[..self.len as usize]
    }

    /// The text of the name, in upper case.
    pub fn as_str(&self) -> &str
        ensures text { result.now ≡ self.now }
        ensures name { IsName self.now }
    {
        // SAFETY: the bytes of a name are letters, digits and `_`, which are ASCII.
        unsafe { str::from_utf8_unchecked(self.as_bytes()) }
    }
}

impl Clone for NameUse {
    ghost is_clone = { λ used copy. copy ≡ used };

    fn clone(&self) -> Result<NameUse, AllocError> {
        Ok(NameUse {
            name: self.name.clone()?,
            span: self.span,
        })
    }
}

impl PartialEq for Name {
    ghost eq = { pointwise nat_eq };

    ghost laws = { partial_equiv_from_equiv nat_list_eq_equiv };

    fn eq(&self, other: &Self) -> bool {
        self.cmp(other).is_eq()
    }
}

impl Eq for Name {
    ghost laws = { nat_list_eq_equiv };
}

impl PartialOrd for Name {
    ghost partial_cmp = { λ a b. Some (slice_cmp nat_cmp a b) };

    ghost laws = { texts_po };

    fn partial_cmp(&self, other: &Self) -> Option<Ordering> {
        Some(self.cmp(other))
    }
}

impl Ord for Name {
    ghost cmp = { slice_cmp nat_cmp };

    ghost total = { nat_list_cmp_total };

    ghost matches_partial_cmp = { λ a b. refl };

    ghost matches_eq = { texts_ties };

    fn cmp(&self, other: &Self) -> Ordering {
        for i in 0..8 {
            let x = eight_from(&self.bytes, 8 * i);
            let y = eight_from(&other.bytes, 8 * i);
            if x != y {
                return x.cmp(&y);
            }
            if x % 256 == 0 {
                return Ordering::Equal;
            }
        }
        Ordering::Equal
    }
}

impl Hash for Name {
    ghost hash_input = { λ name. fed.str name };

    ghost respects_eq = { Prim.search (hashing, rules) };

    fn hash<H: Hasher>(&self, state: &mut H) {
        self.as_str().hash(state);
    }
}

impl fmt::Debug for Name {
    fn fmt<W: fmt::Write>(&self, f: &mut fmt::Formatter<W>) -> fmt::Result {
        fmt::Debug::fmt(self.as_str(), f)
    }
}

impl fmt::Display for Name {
    ghost output = { λ name. Some name };

    fn fmt<W: fmt::Write>(&self, f: &mut fmt::Formatter<W>) -> fmt::Result {
        f.pad(self.as_str())
    }
}
