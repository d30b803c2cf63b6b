//! The paths of a system.
pub(crate) mod instances;
pub(crate) mod names;
pub(crate) mod resolver;
pub(crate) mod split;
