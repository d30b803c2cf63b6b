//! What is kept of earlier jobs, and what of it a job uses again.
pub(crate) mod cache;
pub(crate) mod cached;
pub(crate) mod hints;
pub(crate) mod reuse;
