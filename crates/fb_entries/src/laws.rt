//! The law of the index: what it finds is what follows from the texts.
ghost use Rattle.std.specs.Prelude.{ℕ, List};
ghost use Rattle.fb_index.specs.{Indexed.{Indexed}, Library.Texts.{Texts}};
ghost use Rattle.fb_entries.specs.Indexed.{FindsReached, IsIndexOf};

/// Whether changed names reach a key of the texts is what the index of these texts finds: for faults that one of the names is near the key's unit
/// (`near_of`), for a net or a plan that the unit rests on one (`far_of`).
pub fn an_index_finds_what_is_reached()
    ensures { (texts : Texts) (index : Indexed) → IsIndexOf texts index
        → (changed : List (List ℕ)) → FindsReached texts index changed }
{}
