//! Parts of texts.
ghost use Rattle.std.specs.Prelude.{◌≡◌};
ghost use Rattle.fb_library.specs.Parts.{is_boundary, part};

use fb_parse::text::Span;

/// The part of a text, empty if the span is none of it.
pub fn part_of(text: &str, span: Span) -> &str
    ensures { result.now ≡ part text.now span }
{
    if span.start <= span.end && is_between(text, span.start) && is_between(text, span.end) {
        &text[span.start..span.end]
    } else {
        ""
    }
}

/// Whether a place in a text is between two characters, at its start or at its end.
fn is_between(text: &str, place: usize) -> bool
    ensures { result ≡ is_boundary text.now place }
{
    text.is_char_boundary(place)
}
