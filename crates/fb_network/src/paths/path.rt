//! Paths and places: names joined by points.
ghost use Rattle.std.specs.{Prelude.{◌≡◌, ◌++◌, [], IfOk, nat_eq, refl, string_bytes}, Ordering.{as_partial_cmp}, Cmp.{partial_equiv_from_equiv}};
ghost use Rattle.std.specs.Cmp.Lexicographic.{pointwise, nat_list_eq_equiv, nat_list_cmp_total, texts_po, texts_ties};
ghost use Rattle.fb_tree.specs.Text.Order.{name_cmp};
ghost use Rattle.fb_network.specs.Places.{dotted};

use fb_tree::text::Name;
use std::alloc::{AllocError, Global};
use std::cmp::Ordering;
use std::fmt;
use std::marker::Model;

/// The names of an instance from the network down, perhaps followed by that of a port, joined by points. Paths are ordered by their
/// bytes, and a contract sees a path as the list of these.
pub struct Path {
    text: String,
}

impl Drop for Path {
    fn drop(self) {
        let Self { text: _ } = self;
    }
}

impl Model for Path {
    ghost use Rattle.std.specs.Prelude.{List, ℕ, string_bytes};

    ghost Value = { List ℕ };

    ghost view = { λ it. string_bytes it.text };
}

impl Path {
    /// The path without a name.
    pub fn nothing(alloc: Global) -> Path
        ensures { result ≡ [] }
    {
        Path {
            text: String::new(alloc),
        }
    }

    /// The path of one name.
    pub fn of(alloc: Global, name: &Name) -> Result<Path, AllocError>
        ensures { IfOk result (λ path. path ≡ name.now) }
    {
        let text = String::from_str(alloc, name.as_str())?;
        Ok(Path { text })
    }

    /// The path of two names.
    pub fn of_two(alloc: Global, first: &Name, second: &Name) -> Result<Path, AllocError>
        ensures { IfOk result (λ path. path ≡ dotted first.now second.now) }
    {
        let text = joined(alloc, first.as_str(), second.as_str())?;
        Ok(Path { text })
    }

    /// The path of two texts, the second directly after the first.
    pub fn of_parts(alloc: Global, start: &str, end: &str) -> Result<Path, AllocError>
        ensures { IfOk result (λ path. path ≡ start.now ++ end.now) }
    {
        let mut text = String::with_capacity(alloc, start.len() + end.len())?;
        text.push_str(start)?;
        text.push_str(end)?;
        Ok(Path { text })
    }

    /// This path, inside the instance of that name.
    pub fn within(&self, alloc: Global, name: &Name) -> Result<Path, AllocError>
        ensures { IfOk result (λ path. path ≡ dotted name.now self.now) }
    {
        let text = joined(alloc, name.as_str(), self.as_str())?;
        Ok(Path { text })
    }

    /// This path followed by a name.
    pub fn then(&self, alloc: Global, name: &Name) -> Result<Path, AllocError>
        ensures { IfOk result (λ path. path ≡ dotted self.now name.now) }
    {
        let text = joined(alloc, self.as_str(), name.as_str())?;
        Ok(Path { text })
    }

    /// The same path again.
    pub fn copy(&self) -> Result<Path, AllocError>
        ensures { IfOk result (λ copy. copy ≡ self.now) }
    {
        let text = self.text.clone()?;
        Ok(Path { text })
    }

    pub fn as_str(&self) -> &str
        ensures { result.now ≡ self.now }
    {
        self.text.as_str()
    }
}

/// Two texts with a point between. The room for it is taken once.
fn joined(alloc: Global, first: &str, second: &str) -> Result<String, AllocError>
    ensures { IfOk result (λ text. string_bytes text ≡ dotted first.now second.now) }
{
    let mut text = String::with_capacity(alloc, first.len() + 1 + second.len())?;
    text.push_str(first)?;
    text.push('.')?;
    text.push_str(second)?;
    Ok(text)
}

impl PartialEq for Path {
    ghost eq = { pointwise nat_eq };

    ghost laws = { partial_equiv_from_equiv nat_list_eq_equiv };

    fn eq(&self, other: &Path) -> bool {
        self.text == other.text
    }
}

impl Eq for Path {
    ghost laws = { nat_list_eq_equiv };
}

impl PartialOrd for Path {
    ghost partial_cmp = { as_partial_cmp name_cmp };

    ghost laws = { texts_po };

    fn partial_cmp(&self, other: &Path) -> Option<Ordering> {
        Some(self.cmp(other))
    }
}

impl Ord for Path {
    ghost cmp = { name_cmp };

    ghost total = { nat_list_cmp_total };

    ghost matches_partial_cmp = { λ a b. refl };

    ghost matches_eq = { texts_ties };

    fn cmp(&self, other: &Path) -> Ordering {
        self.text.cmp(&other.text)
    }
}

impl fmt::Debug for Path {
    fn fmt<W: fmt::Write>(&self, f: &mut fmt::Formatter<W>) -> fmt::Result {
        fmt::Debug::fmt(self.as_str(), f)
    }
}
