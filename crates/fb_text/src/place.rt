//! Places in a text, which take less memory than spans.
ghost use Rattle.std.specs.Prelude.{◌≡◌, ◌<◌};

use crate::token::Span;
use std::marker::Model;

/// A part of a text that has less than 4 GiB. A contract sees it as the span.
#[derive(Clone, Copy, Debug, PartialEq, Eq, PartialOrd, Ord)]
pub struct Place {
    // The start, and then the end. One number, since processors copy what is around it faster then.
    packed: u64,
}

const _: () = prove!(size_of::<Place>() == 8);

impl Model for Place {
    ghost use Rattle.fb_text.specs.declared.token.Span.{Span};

    ghost Value = { Span };

    ghost use Rattle.fb_text.specs.Packed.{packed_again, packed_span};
    ghost use Rattle.std.specs.Prelude.{◌+◌, ◌*◌};

    ghost view = { packed_span };

    ghost inverse = { λ s. record { packed = s.start * 4294967296 + s.end } };

    ghost inverse_ok = { λ a h. packed_again a };
}

impl Place {
    /// The span as a place.
    pub fn of(span: Span) -> Place
        requires start { span.start < 4294967296 }
        requires end { span.end < 4294967296 }
        ensures { result ≡ span }
    {
        Place::new(span.start as u32, span.end as u32)
    }

    /// From a byte up to another.
    pub fn new(start: u32, end: u32) -> Place
        ensures { result ≡ record { start = start; end = end } }
    {
        Place {
            packed: start as u64 * 4294967296 + end as u64,
        }
    }

    /// The place as a span.
    pub fn span(self) -> Span
        ensures { result ≡ self }
    {
        Span {
            start: self.start() as usize,
            end: self.end() as usize,
        }
    }

    /// Its first byte.
    pub fn start(self) -> u32
        ensures { result ≡ self.start }
    {
        (self.packed / 4294967296) as u32
    }

    /// The first byte after it.
    pub fn end(self) -> u32
        ensures { result ≡ self.end }
    {
        (self.packed % 4294967296) as u32
    }

    /// From the start of this place to the end of another.
    pub fn through(self, last: Place) -> Place
        ensures { result ≡ record { start = self.start; end = last.end } }
    {
        Place::new(self.start(), last.end())
    }
}
