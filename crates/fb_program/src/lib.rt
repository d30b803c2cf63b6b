//! The arguments of the program, and what it does with the streams that it gets.
#![tactic(auto)]

mod arguments;
mod asked;
mod program;
mod unopened;

pub use arguments::settings;
pub use asked::{HostSettings, Settings};
pub use program::{Outcome, ServerSettings, refuse_words, run};
pub use unopened::{
    refuse_both, refuse_file, refuse_folder, refuse_port, refuse_secret_file, tell_secret_file,
};

/// Of `fb_bench`, for the crates above.
pub mod bench {
    pub use fb_wire::bench::Limits;
}

/// Of `fb_wire`, for the crates above.
pub mod wire {
    pub use fb_wire::{FromRead, IntoWrite, MemoryFeed, MemorySink};
}
