//! The texts of commands.
ghost use Rattle.std.specs.{Prelude.{◌≡◌, IfOk, nat_eq, refl, string_bytes}, Ordering.{as_partial_cmp}, Cmp.{partial_equiv_from_equiv}};
ghost use Rattle.std.specs.Cmp.Lexicographic.{pointwise, nat_list_eq_equiv, nat_list_cmp_total, texts_po, texts_ties};
ghost use Rattle.fb_tree.specs.Text.Order.{name_cmp};
ghost use Rattle.fb_placing.specs.TextParts.{joined};

use crate::plan::text_parts::write_parts;
use std::alloc::{AllocError, Global};
use std::cmp::Ordering;
use std::fmt;
use std::marker::Model;

/// The text of a command. A contract sees it as the list of its bytes.
pub struct Command {
    text: String,
}

impl Drop for Command {
    fn drop(self) {
        let Self { text: _ } = self;
    }
}

impl Model for Command {
    ghost use Rattle.std.specs.Prelude.{List, ℕ, string_bytes};

    ghost Value = { List ℕ };

    ghost view = { λ it. string_bytes it.text };
}

/// How many bytes the parts have.
fn room_for(parts: &[&str]) -> usize {
    let mut room = 0_usize;
    for part in parts {
        room = room.saturating_add(part.len());
    }
    room
}

impl Command {
    /// The command that the parts make.
    pub(crate) fn of_parts(alloc: Global, parts: &[&str]) -> Result<Command, AllocError>
        ensures { IfOk result (λ command. command ≡ joined parts.now) }
    {
        let mut text = String::with_capacity(alloc, room_for(parts))?;
        write_parts(&mut text, parts)?;
        Ok(Command { text })
    }

    pub fn as_str(&self) -> &str
        ensures { result.now ≡ self.now }
    {
        self.text.as_str()
    }
}

impl PartialEq for Command {
    ghost eq = { pointwise nat_eq };

    ghost laws = { partial_equiv_from_equiv nat_list_eq_equiv };

    fn eq(&self, other: &Command) -> bool {
        self.text == other.text
    }
}

impl Eq for Command {
    ghost laws = { nat_list_eq_equiv };
}

impl PartialOrd for Command {
    ghost partial_cmp = { as_partial_cmp name_cmp };

    ghost laws = { texts_po };

    fn partial_cmp(&self, other: &Command) -> Option<Ordering> {
        Some(self.cmp(other))
    }
}

impl Ord for Command {
    ghost cmp = { name_cmp };

    ghost total = { nat_list_cmp_total };

    ghost matches_partial_cmp = { λ a b. refl };

    ghost matches_eq = { texts_ties };

    fn cmp(&self, other: &Command) -> Ordering {
        self.text.cmp(&other.text)
    }
}

impl fmt::Debug for Command {
    fn fmt<W: fmt::Write>(&self, f: &mut fmt::Formatter<W>) -> fmt::Result {
        fmt::Debug::fmt(self.as_str(), f)
    }
}
