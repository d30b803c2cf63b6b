//! Texts in parts, which are compared without joining them, or written over a text.
ghost use Rattle.std.specs.Prelude.{◌≡◌, ◌↔◌, IsTrue, OnOk, length, slice_get, string_bytes, ◌++◌};
ghost use Rattle.fb_placing.specs.TextParts.{joined};

use std::alloc::AllocError;

/// The byte at a place of the text that the parts make.
fn byte_at(parts: &[&str], place: u128) -> Option<u8>
    ensures { result ≡ slice_get (joined parts.now) place }
{
    let mut left = place;
    for part in parts {
        let length = part.len() as u128;
        if left < length {
            return Some(part.as_bytes()[left as usize]);
        }
        left -= length;
    }
    None
}

/// How many bytes the parts have.
fn length_of(parts: &[&str]) -> u128
    ensures { result ≡ length (joined parts.now) }
{
    let mut length = 0;
    for part in parts {
        length += part.len() as u128;
    }
    length
}

/// Whether the parts are the same one by one.
fn are_same_parts(a: &[&str], b: &[&str]) -> bool
    ensures { IsTrue result → joined a.now ≡ joined b.now }
{
    if a.len() != b.len() {
        return false;
    }
    for place in 0..a.len() {
        if a[place] != b[place] {
            return false;
        }
    }
    true
}

/// Whether both make the same text, byte by byte.
fn are_same_bytes(a: &[&str], b: &[&str]) -> bool
    ensures { IsTrue result ↔ (joined a.now ≡ joined b.now) }
{
    let length = length_of(a);
    if length != length_of(b) {
        return false;
    }
    for place in 0..length {
        if byte_at(a, place) != byte_at(b, place) {
            return false;
        }
    }
    true
}

/// Whether both make the same text, wherever it is divided. It takes no memory.
pub(crate) fn is_same_text(a: &[&str], b: &[&str]) -> bool
    ensures { IsTrue result ↔ (joined a.now ≡ joined b.now) }
{
    are_same_parts(a, b) || are_same_bytes(a, b)
}

/// Replaces a text by the one that the parts make.
pub(crate) fn write_parts(text: &mut String, parts: &[&str]) -> Result<(), AllocError>
    ensures { OnOk result (string_bytes text.new ≡ joined parts.now) }
{
    text.clear();
    for part in parts {
        text.push_str(part)?;
    }
    Ok(())
}

/// Replaces a text by one of two parts.
pub(crate) fn write_both(text: &mut String, start: &str, end: &str) -> Result<(), AllocError>
    ensures { OnOk result (string_bytes text.new ≡ start.now ++ end.now) }
{
    write_parts(text, &[start, end])
}
