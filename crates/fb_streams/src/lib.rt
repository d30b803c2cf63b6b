//! Where the bytes of lines come from and where they go: readers and writers of which contracts see what they gave and took.
#![tactic(auto)]

mod feed;
mod from_read;
mod into_write;
mod memory_feed;
mod memory_sink;
mod tape;

pub use feed::{Feed, Sink, StreamError};
pub use from_read::FromRead;
pub use into_write::IntoWrite;
pub use memory_feed::MemoryFeed;
pub use memory_sink::MemorySink;
