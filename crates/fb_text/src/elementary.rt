//! Elementary and generic types, by their names.
ghost use Rattle.std.specs.Prelude.{◌≡◌};
ghost use Rattle.fb_text.specs.Elementary.{bit_types, integer_types, is_elementary, is_generic_type, is_one_of, other_types, time_types, type_class_of};

use crate::scan::same_word;

/// What the values of a type are, as far as its name shows.
#[derive(Clone, Copy, Debug, PartialEq, Eq)]
pub enum TypeClass {
    /// Truth values.
    Truth,
    /// Whole numbers.
    Integer,
    /// Strings of bits.
    Bits,
    /// A generic type, which any value fits.
    Free,
    /// All others.
    Other,
}

/// The class of the type with this name, in any case.
#[tactic(auto, unfolding(crate::specs::Elementary::type_class_of))]
pub fn type_class(word: &[u8]) -> TypeClass
    ensures { result ≡ type_class_of word.now }
{
    if same_word(word, b"BOOL") {
        TypeClass::Truth
    } else if is_integer_type(word) {
        TypeClass::Integer
    } else if is_bit_type(word) {
        TypeClass::Bits
    } else if is_generic_type(word) {
        TypeClass::Free
    } else {
        TypeClass::Other
    }
}

/// Whether values of the type with this name need no declaration of it, in any case.
#[tactic(auto, unfolding(crate::specs::Elementary::is_elementary))]
pub fn is_elementary(word: &[u8]) -> bool
    ensures { result ≡ is_elementary word.now }
{
    match type_class(word) {
        TypeClass::Truth | TypeClass::Integer | TypeClass::Bits | TypeClass::Free => true,
        TypeClass::Other => is_time_type(word) || is_other_type(word),
    }
}

fn is_integer_type(word: &[u8]) -> bool
    ensures { result ≡ is_one_of integer_types word.now }
{
    same_word(word, b"SINT")
        || same_word(word, b"INT")
        || same_word(word, b"DINT")
        || same_word(word, b"LINT")
        || same_word(word, b"USINT")
        || same_word(word, b"UINT")
        || same_word(word, b"UDINT")
        || same_word(word, b"ULINT")
}

fn is_bit_type(word: &[u8]) -> bool
    ensures { result ≡ is_one_of bit_types word.now }
{
    same_word(word, b"BYTE")
        || same_word(word, b"WORD")
        || same_word(word, b"DWORD")
        || same_word(word, b"LWORD")
}

/// Durations, dates and times of day.
fn is_time_type(word: &[u8]) -> bool
    ensures { result ≡ is_one_of time_types word.now }
{
    same_word(word, b"TIME")
        || same_word(word, b"DATE")
        || same_word(word, b"TOD")
        || same_word(word, b"TIME_OF_DAY")
        || same_word(word, b"DT")
        || same_word(word, b"DATE_AND_TIME")
}

/// The other elementary types of the class `Other`: real numbers and strings.
fn is_other_type(word: &[u8]) -> bool
    ensures { result ≡ is_one_of other_types word.now }
{
    same_word(word, b"REAL")
        || same_word(word, b"LREAL")
        || same_word(word, b"STRING")
        || same_word(word, b"WSTRING")
}

/// `ANY`, and a name that begins with `ANY_`. A word of more than 64 bytes is no name.
#[tactic(auto, unfolding(crate::specs::Elementary::is_generic_type))]
fn is_generic_type(word: &[u8]) -> bool
    ensures { result ≡ is_generic_type word.now }
{
    same_word(word, b"ANY") || (word.len() <= 64 && same_word(&word[..word.len().min(4)], b"ANY_"))
}
