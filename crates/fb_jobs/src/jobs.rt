//! Jobs, what they compute, and their results.
mod computed;
pub(crate) mod job;
pub(crate) mod result;
