//! The values of entries, alone and with the reads that gave them.
pub(crate) mod derivation;
pub(crate) mod same;
pub(crate) mod value;
