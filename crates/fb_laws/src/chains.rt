//! Laws of flat nets: how the chains of links and borders are composed of those of inner nets.
ghost use Rattle.fb_laws.specs.Chains.{FlatBordersAreComposed, FlatLinksAreComposed, FlatUnitsAreClean, InnerBordersAreListed, InnerNetsAreFlat};

/// Where the net of a unit is flat, its own network, or that of each application of a system, is clean, and so are those of its
/// subapplication instances, of all depths.
pub fn flat_units_are_clean()
    ensures { FlatUnitsAreClean }
{}

/// If the net of a unit is flat, a chain of a link is inside one subapplication instance, and a chain of a link there, or it passes
/// exactly one connection of the unit's own network, and before and after that nothing or a border of an inner network. A chain of a
/// border passes exactly one, with the same before and after it.
pub fn flat_chains_are_composed()
    ensures links { FlatLinksAreComposed }
    ensures borders { FlatBordersAreComposed }
{}

/// Where the net of a unit is flat, so is that of the type of each of its subapplication instances: it is the flat network of the inner
/// network, and the borders of the inner network are among its borders.
pub fn inner_nets_are_flat()
    ensures nets { InnerNetsAreFlat }
    ensures borders { InnerBordersAreListed }
{}
