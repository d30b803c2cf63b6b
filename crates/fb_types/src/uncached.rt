//! What must still be read if nets are kept.
ghost use Rattle.std.specs.{Prelude.{◌≡◌, IfSome}, Option.{option_map}};
ghost use Rattle.std.specs.FinMap as map;
ghost use Rattle.fb_types.specs.Hints.{is_uncached, uncached_of};

use crate::hints::{Hints, is_known_whole};
use fb_iface::library::View;
use fb_iface::parse::Source;
use fb_tree::text::{Name, same_name};

/// The sources that must be read for the net of a unit: none of other units whose kept nets show that they are not blocked
/// and that none of what they rest on reaches itself.
#[derive(Clone, Copy)]
pub struct Uncached<'a, V, H> {
    pub view: &'a V,
    pub hints: &'a H,
    pub unit: Name,
}

fn is_uncached<H: Hints>(hints: &H, unit: &Name, name: &Name) -> bool
    ensures { result ≡ is_uncached (H.hints hints.now) unit.now name.now }
{
    same_name(unit, name) || !is_known_whole(hints, name)
}

/// The source of a name that must be read.
fn uncached_source<'a, V: View, H: Hints>(
    view: &'a V,
    hints: &H,
    unit: &Name,
    name: &Name,
) -> Option<&'a Source>
    ensures text { option_map (λ it. it.now.text) result
        ≡ map.get (uncached_of (H.hints hints.now) (V.sources view.now) unit.now) name.now }
    ensures own { IfSome result (λ it. it.now.unit ≡ name.now) }
{
    if is_uncached(hints, unit, name) {
        view.get(name)
    } else {
        None
    }
}

impl<V: View, H: Hints> View for Uncached<'_, V, H> {
    ghost sources = { λ s. uncached_of (H.hints s.hints.now) (V.sources s.view.now) s.unit };

    fn get(&self, name: &Name) -> Option<&Source> {
        uncached_source(self.view, self.hints, &self.unit, name)
    }
}
