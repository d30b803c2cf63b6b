//! Units whose instances are counted.
ghost use Rattle.std.specs.{Prelude.{◌≡◌, IfSome}, Option.{option_map}};
ghost use Rattle.std.specs.FinMap as map;
ghost use Rattle.fb_types.specs.Holders.{holders_of};

use crate::kinds::has_net;
use fb_iface::library::View;
use fb_iface::parse::Source;
use fb_tree::text::Name;

/// The sources of subapplications and systems. The instances of other units are not counted.
#[derive(Clone, Copy)]
pub struct Holders<'a, V> {
    pub view: &'a V,
}

/// The source of a subapplication or a system.
fn source_of_holder<'a, V: View>(view: &'a V, name: &Name) -> Option<&'a Source>
    ensures text { option_map (λ it. it.now.text) result
        ≡ map.get (holders_of (V.sources view.now)) name.now }
    ensures own { IfSome result (λ it. it.now.unit ≡ name.now) }
{
    if has_net(view, name) {
        view.get(name)
    } else {
        None
    }
}

impl<V: View> View for Holders<'_, V> {
    ghost sources = { λ s. holders_of (V.sources s.view.now) };

    fn get(&self, name: &Name) -> Option<&Source> {
        source_of_holder(self.view, name)
    }
}
