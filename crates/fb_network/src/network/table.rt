//! What each name means in a network.
ghost use Rattle.std.specs.{Prelude.{◌≡◌, List, ℕ, OnOk}, BTreeMap.{get}};
ghost use Rattle.fb_tree.specs.Text.Order.{name_cmp};
ghost use Rattle.fb_network.specs.Standing.{or_alone};

use crate::flat::entries::Edge;
use crate::network::Instance;
use fb_tree::text::Name;
use std::alloc::AllocError;
use std::collections::BTreeMap;

/// An instance, with the borders of what it holds.
#[derive(Debug)]
pub struct Standing {
    pub instance: Instance,
    pub borders: Vec<Edge>,
}

impl Drop for Standing {
    fn drop(self) {
        let Self {
            instance: _,
            borders: _,
        } = self;
    }
}

/// The first instance of each name.
pub type Table = BTreeMap<Name, Standing>;

/// Puts an instance into the table, unless there is one of its name.
pub fn put(table: &mut Table, instance: &Instance, borders: Vec<Edge>) -> Result<(), AllocError>
    ensures { OnOk result
        ((name : List ℕ) → get name_cmp table.new name
        ≡ or_alone (record { instance = instance.now; borders = borders }) name
        (get name_cmp table.old name)) }
{
    if !table.contains_key(&instance.name) {
        table.insert(
            instance.name,
            Standing {
                instance: *instance,
                borders,
            },
        )?;
    }
    Ok(())
}
