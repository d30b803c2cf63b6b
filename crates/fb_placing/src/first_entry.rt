//! Tables of what texts mean: of several entries for a text the first counts.
ghost use Rattle.std.specs.{Prelude.{◌≡◌, ℕ, List, Some, None, if◌then◌else◌, OnOk, string_bytes}, HashMap.{get_by_text}, Option.{option_or}, Str.{bytes_eq}};

use std::alloc::AllocError;
use std::collections::HashMap;

/// Adds the meaning of a text, if it has none yet.
pub(crate) fn insert_first<X: Drop>(
    table: &mut HashMap<String, X>,
    text: String,
    value: X,
) -> Result<(), AllocError>
    ensures { OnOk result ((q : List ℕ) → get_by_text table.new q
        ≡ option_or (get_by_text table.old q)
        (if bytes_eq (string_bytes text) q then Some value else None)) }
{
    if !table.contains_key(text.as_str()) {
        table.insert(text, value)?;
    }
    Ok(())
}
