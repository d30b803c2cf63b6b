//! Laws of flat networks.
ghost use Rattle.std.specs.Prelude.{◌≡◌, List};
ghost use Rattle.fb_network.specs.{Plain.{PlainNetwork}, PlainFlat.{PlainFlat}, Network.{View}, Clean.{IsCleanThroughout}, FlatNet.{IsFlat}};
ghost use Rattle.fb_network.specs.{declared.flat.application.FlatApplication.{FlatApplication}, Composition.{ChainsAreComposed}, SystemFlat.{IsSystemFlat}};

/// The law that composing rests on: a chain is inside one subapplication instance, or holds exactly one connection of the network
/// itself, and before and after it nothing or a border of an inner network.
pub fn chains_are_composed()
    ensures { (view : View) (network : PlainNetwork)
        → IsCleanThroughout view network → ChainsAreComposed view network }
{}

/// A network has one flat network only.
pub fn flat_is_one()
    ensures { (view : View) (network : PlainNetwork) (a b : PlainFlat)
        → IsFlat view network a → IsFlat view network b → a ≡ b }
{}

/// A system has one flat network only.
pub fn system_is_one()
    ensures { (applications : List FlatApplication) (a b : PlainFlat)
        → IsSystemFlat applications a → IsSystemFlat applications b → a ≡ b }
{}
