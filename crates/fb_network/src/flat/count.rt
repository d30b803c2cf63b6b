//! How far instances are counted.

/// The most instances of a flat network, subapplication instances among them. Counts go no further than one past it.
pub const INSTANCE_LIMIT: u32 = 4096;
