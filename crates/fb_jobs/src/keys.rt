//! The keys of entries, and what is read for each.
pub(crate) mod inputs;
pub(crate) mod key;
pub(crate) mod kinds;
pub(crate) mod read;
mod read_list;
pub(crate) mod reads;
pub(crate) mod texts;
