//! Nets.
use fb_network::Flat;
use fb_tree::text::Name;

/// The flat network of a unit, or why it has none.
#[derive(Drop)]
pub enum Net {
    /// Of the names that the unit rests on those of a unit with faults, and those that are absent and a part. An absent type of a value blocks nothing.
    Blocked(Vec<Name>),
    /// Of the types that the unit rests on those that contain themselves.
    Recursive(Vec<Name>),
    /// More instances than the limit.
    TooLarge,
    Flat(Flat),
}
