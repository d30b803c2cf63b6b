//! Std's readers as feeds.
ghost use Rattle.std.specs.{Prelude.{◌≡◌, [], length, false}, List.{concat}};

use crate::feed::{Feed, StreamError};
use crate::tape::{Piece, Tape};
use std::io::Read;

/// A reader as a feed. Every error of a read is a failure.
#[derive(Drop)]
pub struct FromRead<R> {
    inner: R,
    has_failed: bool,
    has_ended: bool,
    tape: Tape,
}

impl<R: Read> FromRead<R> {
    /// The feed of this reader, of which nothing was read yet.
    pub fn new(inner: R) -> FromRead<R>
        ensures failed { ⟦<FromRead<R> as Feed>⟧.has_failed result ≡ false }
        ensures ended { ⟦<FromRead<R> as Feed>⟧.has_ended result ≡ false }
        ensures given { ⟦<FromRead<R> as Feed>⟧.given result ≡ [] }
        ensures left { ⟦<FromRead<R> as Feed>⟧.left result ≡ R.remaining inner }
        ensures reads { ⟦<FromRead<R> as Feed>⟧.reads result ≡ 0 }
    {
        FromRead {
            inner,
            has_failed: false,
            has_ended: false,
            tape: Tape::new(),
        }
    }
}

impl<R: Read> Feed for FromRead<R> {
    ghost given = { λ f. concat f.tape.pieces };

    ghost left = { λ f. R.remaining f.inner };

    ghost reads = { λ f. length f.tape.pieces };

    ghost has_failed = { λ f. f.has_failed };

    ghost has_ended = { λ f. f.has_ended };

    #[tactic(auto, using(crate::proofs::Tapes::tapes))]
    fn read(&mut self, buffer: &mut [u8]) -> Result<usize, StreamError> {
        match self.inner.read(buffer) {
            Ok(count) => {
                let bytes = &buffer[..count];
                self.tape = self.tape.then(&Piece { bytes });
                self.has_ended = count == 0 && !buffer.is_empty();
                Ok(count)
            }
            Err(_) => {
                self.tape = self.tape.then(&Piece { bytes: &[] });
                self.has_failed = true;
                Err(StreamError)
            }
        }
    }

    fn failed(&self) -> bool {
        self.has_failed
    }

    fn ended(&self) -> bool {
        self.has_ended
    }
}
