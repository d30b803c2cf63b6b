//! The flat network of a network.
ghost use Rattle.std.specs.Prelude.{◌≡◌, [], IfOk};
ghost use Rattle.fb_network.specs.{Part.{IsFlatInWhole}, Standing.{HasOwn}};

use crate::composition::borders::borders_of_network;
use crate::composition::draft::{Draft, finish};
use crate::composition::instances::take_instances;
use crate::composition::links::push_links;
use crate::flat::Flat;
use crate::network::Network;
use crate::network::look_up::{Nets, Networks};
use crate::network::own::texts_of;
use std::alloc::{AllocError, Global};
use std::sync::Arc;

/// A draft with the prefix of a network's own texts, without blocks and links.
fn own_draft(alloc: Global, network: &Network) -> Result<Draft, AllocError>
    ensures own { IfOk result (λ draft. HasOwn draft.prefixes network.now) }
    ensures leaves { IfOk result (λ draft. draft.leaves.items ≡ []) }
    ensures joins { IfOk result (λ draft. draft.joins.items ≡ []) }
{
    let texts = Arc::new(alloc, texts_of(alloc, network)?)?;
    let mut draft = Draft::new(alloc);
    draft.prefixes.push_ends(texts)?;
    Ok(draft)
}

/// The flat network of a network, composed of the flat networks of its subapplications. Of the view it needs only a part: the types of the
/// network's instances and the adapters of ports, its own and theirs.
pub fn compose_by_part<V: Networks, N: Nets>(
    alloc: Global,
    part: &V,
    network: &Network,
    nets: &N,
) -> Result<Flat, AllocError>
    ensures { IfOk result (IsFlatInWhole (V.networks part.now) network.now (N.nets nets.now)) }
{
    let mut draft = own_draft(alloc, network)?;
    let table = take_instances(alloc, &mut draft, nets, network.instances())?;
    push_links(alloc, &mut draft, part, network, &table)?;
    let edges = borders_of_network(alloc, network, &table)?;
    finish(alloc, draft, edges)
}
