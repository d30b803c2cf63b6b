//! Prefixes of a network, and paths in two parts.
ghost use Rattle.std.specs.Prelude.{◌≡◌, [], ◌∷◌, ◌++◌, List, ℕ, IfOk, OnOk, length, map, slice_get, string_bytes};
ghost use Rattle.fb_tree.specs.Text.Order.{name_cmp};
ghost use Rattle.fb_network.specs.{Laid.{path_at, path_in, prefix_within, text_or_nothing}, Places.{dotted}, Starts.{IsIn, start_in}};

use crate::paths::path::Path;
use crate::paths::place::{Place, number};
use fb_tree::text::Name;
use std::alloc::{AllocError, Global};
use std::cmp::Ordering;
use std::marker::Model;
use std::sync::Arc;

/// Where the start of some paths is in the text of all starts, and the texts that may follow it, which places of one type share.
#[derive(Debug, Drop)]
struct Prefix {
    from: u32,
    to: u32,
    ends: Arc<Vec<Path>>,
}

// Each instance inside a net takes this number of bytes, and the text of its start.
const _: () = prove!(size_of::<Prefix>() == 16);

/// The prefixes of a network. Their starts are one text of less than 4 GiB, one after the other.
#[derive(Debug, Drop)]
pub struct Prefixes {
    starts: String,
    prefixes: Vec<Prefix>,
}

impl Model for Prefixes {
    ghost use Rattle.std.specs.{Prelude.{List, map, string_bytes}, List.{All}};
    ghost use Rattle.fb_network.specs.{PlainPrefix.{PlainPrefix}, Starts.{IsIn, prefix_in}};

    ghost Value = { List PlainPrefix };

    ghost view = { λ it. map (prefix_in (string_bytes it.starts)) it.prefixes.items };

    ghost invariant = { λ it. All (IsIn (string_bytes it.starts)) it.prefixes.items };
}

/// The text of an end, which is empty if there is no such end.
fn end_text(ends: &[Path], end: u32) -> &str
    ensures { result.now ≡ text_or_nothing (slice_get ends.now end) }
{
    match ends.get(end as usize) {
        Some(text) => text.as_str(),
        None => "",
    }
}

/// The start of a prefix.
fn start_of<'a>(starts: &'a str, prefix: &Prefix) -> &'a str
    requires { IsIn starts.now prefix.now }
    ensures { result.now ≡ start_in starts.now prefix.now }
{
    &starts[prefix.from as usize..prefix.to as usize]
}

/// Adds two texts with a point between.
fn push_dotted(starts: &mut String, first: &str, second: &str) -> Result<(), AllocError>
    ensures grows { (more : List ℕ) × (string_bytes starts.new ≡ string_bytes starts.old ++ more) }
    ensures dotted { OnOk result
        (string_bytes starts.new ≡ string_bytes starts.old ++ dotted first.now second.now) }
{
    starts.push_str(first)?;
    starts.push('.')?;
    starts.push_str(second)
}

impl Prefixes {
    /// No prefixes.
    pub fn new(alloc: Global) -> Prefixes
        ensures { result ≡ [] }
    {
        Prefixes {
            starts: String::new(alloc),
            prefixes: Vec::new(alloc),
        }
    }

    /// How many there are.
    pub fn count(&self) -> Result<u32, AllocError>
        ensures { IfOk result (λ count. count ≡ length self.now) }
    {
        number(self.prefixes.len())
    }

    /// Adds a prefix without a start.
    pub fn push_ends(&mut self, ends: Arc<Vec<Path>>) -> Result<(), AllocError>
        ensures { OnOk result
            (self.new ≡ self.old ++ record { start = []; ends = ends.value.items } ∷ []) }
    {
        self.prefixes.push(Prefix {
            from: 0,
            to: 0,
            ends,
        })?;
        Ok(())
    }

    /// Adds a prefix whose start is two texts with a point between.
    pub fn push(
        &mut self,
        first: &str,
        second: &str,
        ends: Arc<Vec<Path>>,
    ) -> Result<(), AllocError>
        ensures { OnOk result (self.new ≡ self.old ++ record {
          start = dotted first.now second.now;
          ends = ends.value.items;
        } ∷ []) }
    {
        let from = number(self.starts.len())?;
        push_dotted(&mut self.starts, first, second)?;
        let to = number(self.starts.len())?;
        self.prefixes.push(Prefix { from, to, ends })?;
        Ok(())
    }

    /// Adds the prefixes of an inner network, inside the instance of that name.
    pub fn push_within(&mut self, name: &Name, inner: &Prefixes) -> Result<(), AllocError>
        ensures { OnOk result (self.new ≡ self.old ++ map (prefix_within name.now) inner.now) }
    {
        let name = name.as_str();
        let names = inner.prefixes.len().saturating_mul(name.len() + 1);
        self.starts
            .reserve(inner.starts.len().saturating_add(names))?;
        self.prefixes.reserve(inner.prefixes.len())?;
        for prefix in &inner.prefixes {
            let start = start_of(inner.starts.as_str(), prefix);
            self.push(name, start, prefix.ends.clone()?)?;
        }
        Ok(())
    }

    /// The two parts of the path at a place.
    pub fn parts(&self, place: &Place) -> (&str, &str)
        ensures { result.0.now ++ result.1.now ≡ path_at self.now place.now }
    {
        match self.prefixes.get(place.prefix as usize) {
            Some(prefix) => {
                let start = start_of(self.starts.as_str(), prefix);
                (start, end_text(&prefix.ends, place.end))
            }
            None => ("", ""),
        }
    }

    /// The order of the paths of two ends of one prefix.
    #[tactic(auto, using(crate::proofs::Tellings::ends))]
    pub fn compare_ends(&self, prefix: u32, a: u32, b: u32) -> Ordering
        ensures { result
            ≡ name_cmp (path_in (slice_get self.now prefix) a) (path_in (slice_get self.now prefix) b) }
    {
        if a == b {
            return Ordering::Equal;
        }
        match self.prefixes.get(prefix as usize) {
            Some(prefix) => end_text(&prefix.ends, a).cmp(end_text(&prefix.ends, b)),
            None => Ordering::Equal,
        }
    }

    /// Frees the memory that no prefix needs.
    pub fn shrink_to_fit(&mut self)
        ensures { self.new ≡ self.old }
    {
        self.starts.shrink_to_fit();
        self.prefixes.shrink_to_fit();
    }
}
