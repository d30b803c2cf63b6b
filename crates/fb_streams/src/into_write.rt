//! Std's writers as sinks.
ghost use Rattle.std.specs.{Prelude.{◌≡◌, ◌++◌, ◌≤◌, ◌<◌, [], length, true, false, IfOk, is_err}, Io.KnownBytes.{Appends, Keeps}, List.{concat}};
ghost use Rattle.fb_streams.specs.Streams.{bytes_in};

use crate::feed::{Sink, StreamError};
use crate::tape::{Piece, Tape};
use std::io::Write;

/// A writer as a sink. Every error of a write or a flush is a failure, and so is a write that takes none of
/// some bytes.
#[derive(Drop)]
pub struct IntoWrite<W> {
    inner: W,
    has_failed: bool,
    is_flushed: bool,
    tape: Tape,
}

impl<W: Write> IntoWrite<W> {
    /// The sink of this writer, into which nothing was written yet.
    pub fn new(inner: W) -> IntoWrite<W>
        ensures failed { ⟦<IntoWrite<W> as Sink>⟧.has_failed result ≡ false }
        ensures held { ⟦<IntoWrite<W> as Sink>⟧.held result ≡ [] }
        ensures flushed { ⟦<IntoWrite<W> as Sink>⟧.is_flushed result ≡ true }
        ensures inner { W.contents result.inner ≡ W.contents inner }
    {
        IntoWrite {
            inner,
            has_failed: false,
            is_flushed: true,
            tape: Tape::new(),
        }
    }
}

impl<W: Write> Sink for IntoWrite<W> {
    ghost held = { λ s. concat s.tape.pieces };

    ghost is_flushed = { λ s. s.is_flushed };

    ghost has_failed = { λ s. s.has_failed };

    #[tactic(auto, using(crate::proofs::Tapes::tapes))]
    fn write(&mut self, bytes: &[u8]) -> Result<usize, StreamError>
        requires { self.old.has_failed ≡ false }
        ensures within { IfOk result (λ n. n ≤ length bytes.now) }
        ensures some { IfOk result (λ n. 0 < length bytes.now → 0 < n) }
        ensures held { concat self.new.tape.pieces
            ≡ concat self.old.tape.pieces ++ bytes_in result bytes.now }
        ensures unflushed { IfOk result (λ n. 0 < n → self.new.is_flushed ≡ false) }
        ensures failed { self.new.has_failed ≡ is_err result }
        // If the writer's bytes are known, they have grown by those that were taken.
        ensures contents { Appends (W.contents self.old.inner) (W.contents self.new.inner)
            (bytes_in result bytes.now) }
    {
        match self.inner.write(bytes) {
            Ok(count) => {
                if count == 0 && !bytes.is_empty() {
                    self.has_failed = true;
                    return Err(StreamError);
                }
                let taken = &bytes[..count];
                self.is_flushed = false;
                self.tape = self.tape.then(&Piece { bytes: taken });
                Ok(count)
            }
            Err(_) => {
                self.has_failed = true;
                Err(StreamError)
            }
        }
    }

    fn flush(&mut self) -> Result<(), StreamError>
        requires { self.old.has_failed ≡ false }
        ensures held { concat self.new.tape.pieces ≡ concat self.old.tape.pieces }
        ensures flushed { IfOk result (λ _. self.new.is_flushed ≡ true) }
        ensures failed { self.new.has_failed ≡ is_err result }
        ensures contents { Keeps (W.contents self.old.inner) (W.contents self.new.inner) }
    {
        match self.inner.flush() {
            Ok(()) => {
                self.is_flushed = true;
                Ok(())
            }
            Err(_) => {
                self.has_failed = true;
                Err(StreamError)
            }
        }
    }

    fn failed(&self) -> bool {
        self.has_failed
    }
}
