//! What the instances of a network hold.
ghost use Rattle.std.specs.{Prelude.{◌≡◌, [], IfOk, OnOk, map}, BTreeMap.{get}};
ghost use Rattle.fb_tree.specs.Text.Order.{name_cmp};
ghost use Rattle.fb_network.specs.Standing.{AreNamed, HoldsInstances, Says, TakesInstance};

use crate::composition::draft::{Draft, take_in};
use crate::flat::entries::{Edge, Leaf};
use crate::network::look_up::Nets;
use crate::network::table::{Table, put};
use crate::network::{Instance, InstanceKind};
use crate::paths::place::{Place, number};
use fb_tree::text::CompactName;
use std::alloc::{AllocError, Global};
use std::collections::BTreeMap;

/// Takes in a block, whose name is at that place, or what a subapplication instance holds; and gives the instance's borders.
fn take_instance<N: Nets>(
    alloc: Global,
    draft: &mut Draft,
    nets: &N,
    instance: &Instance,
    name: Place,
) -> Result<Vec<Edge>, AllocError>
    requires { Says draft.old.prefixes name instance.now.name }
    ensures { IfOk result
        (λ edges. TakesInstance (N.nets nets.now) draft.old draft.new instance.now edges.items) }
{
    match instance.kind {
        InstanceKind::Block => {
            draft.leaves.push(Leaf {
                place: name,
                type_name: CompactName::keep(alloc, &instance.type_name)?,
            })?;
            Ok(Vec::new(alloc))
        }
        InstanceKind::Subapplication => match nets.net(&instance.type_name) {
            Some(inner) => take_in(alloc, draft, &instance.name, inner),
            None => Ok(Vec::new(alloc)),
        },
    }
}

/// Takes in all instances, and gives the table of them.
pub fn take_instances<N: Nets>(
    alloc: Global,
    draft: &mut Draft,
    nets: &N,
    instances: &[Instance],
) -> Result<Table, AllocError>
    requires named { AreNamed draft.old.prefixes instances.now }
    requires no_blocks { draft.old.leaves.items ≡ [] }
    requires no_links { draft.old.joins.items ≡ [] }
    ensures { IfOk result
        (λ table. HoldsInstances (N.nets nets.now) draft.old draft.new (get name_cmp table)
        instances.now) }
{
    let mut table = BTreeMap::new(alloc);
    for place in 0..instances.len() {
        let instance = &instances[place];
        let name = Place {
            prefix: 0,
            end: number(place)?,
        };
        let borders = take_instance(alloc, draft, nets, instance, name)?;
        put(&mut table, instance, borders)?;
    }
    Ok(table)
}
