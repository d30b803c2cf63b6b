//! A sink in memory, which fails on request.
ghost use Rattle.std.specs.Prelude.{◌≡◌, ◌≤◌, ◌<◌, [], true, false};

use crate::feed::{Sink, StreamError};
use std::alloc::Global;

/// What was written, in memory. A write takes at most `piece` bytes, and the one after `good_writes` fails.
#[derive(Drop)]
pub struct MemorySink {
    held: Vec<u8>,
    piece: usize,
    good_writes: u64,
    made: u64,
    failed: bool,
    flushed: bool,
    ghost some: { 0 < piece },
    ghost counted: { made ≤ good_writes },
}

impl MemorySink {
    /// A sink that holds nothing yet.
    pub fn new(alloc: Global, piece: usize, good_writes: u64) -> MemorySink
        requires { 0 < piece }
        ensures held { ⟦<MemorySink as Sink>⟧.held result ≡ [] }
        ensures flushed { ⟦<MemorySink as Sink>⟧.is_flushed result ≡ true }
        ensures failed { ⟦<MemorySink as Sink>⟧.has_failed result ≡ false }
    {
        MemorySink {
            held: Vec::new(alloc),
            piece,
            good_writes,
            made: 0,
            failed: false,
            flushed: true,
        }
    }

    /// What was written.
    pub fn as_slice(&self) -> &[u8]
        ensures { result.now ≡ ⟦<MemorySink as Sink>⟧.held self.now }
    {
        &self.held
    }
}

impl Sink for MemorySink {
    ghost held = { λ s. s.held.items };

    ghost is_flushed = { λ s. s.flushed };

    ghost has_failed = { λ s. s.failed };

    fn write(&mut self, bytes: &[u8]) -> Result<usize, StreamError> {
        let count = self.piece.min(bytes.len());
        if self.made == self.good_writes || self.held.extend_from_slice(&bytes[..count]).is_err() {
            self.failed = true;
            return Err(StreamError);
        }
        self.made += 1;
        self.flushed = false;
        Ok(count)
    }

    fn flush(&mut self) -> Result<(), StreamError> {
        self.flushed = true;
        Ok(())
    }

    fn failed(&self) -> bool {
        self.failed
    }
}
