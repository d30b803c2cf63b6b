//! Strings, and quotes that open none.
ghost use Rattle.std.specs.{Prelude.{◌≡◌, ◌≤◌, ◌<◌, ◌+◌, true, false, not, drop, length, slice_index, IfSome}, List.{prefix_len}, Str.{IsCharBoundary}};
ghost use Rattle.fb_text.specs.{Bytes.{is_line_end, is_quote, first}, Scan.{AreOpen, extended, line_rest, no_quotes, reach_of, string_len, through_quote}};
ghost use Rattle.fb_text.specs.Tokens.{piece_at};

use crate::bytes::{is_line_end, is_quote};
use crate::scan::Piece;
use crate::token::TokenKind;

/// Up to where the quotes of each kind open no string. After a quote that is not closed on its line no quote of its
/// kind opens one before the line's end, so a line is looked through once for each kind.
#[derive(Clone, Copy)]
pub struct OpenQuotes {
    single: usize,
    double: usize,
}

impl OpenQuotes {
    /// Before any quote.
    pub fn new() -> OpenQuotes
        ensures { result ≡ no_quotes }
    {
        OpenQuotes {
            single: 0,
            double: 0,
        }
    }

    /// Up to where quotes of this kind open no string.
    fn reach(&self, quote: u8) -> usize
        ensures { result ≡ reach_of self.now quote }
    {
        if quote == b'"' {
            self.double
        } else {
            self.single
        }
    }

    /// Quotes of this kind open no string up to a place.
    fn extend(&mut self, quote: u8, end: usize)
        ensures { self.new ≡ extended self.old quote end }
    {
        if quote == b'"' {
            self.double = end;
        } else {
            self.single = end;
        }
    }
}

/// How many bytes go through the closing quote, if one comes before the line's end.
fn through_quote(quote: u8, bytes: &[u8]) -> Option<usize>
    ensures value { result ≡ through_quote quote false bytes.now }
    ensures within { IfSome result (λ n. n ≤ length bytes.now) }
{
    let mut escaped = false;
    for (i, b) in bytes.iter().enumerate() {
        if is_line_end(*b) {
            return None;
        }
        if !escaped && *b == quote {
            return Some(i + 1);
        }
        escaped = !escaped && *b == b'$';
    }
    None
}

/// The length of a string, 0 if there is none.
#[tactic(auto, unfolding(crate::specs::Scan::string_len))]
fn string_len(bytes: &[u8]) -> usize
    ensures value { result ≡ string_len bytes.now }
    ensures within { result ≤ length bytes.now }
{
    if bytes.is_empty() || !is_quote(bytes[0]) {
        return 0;
    }
    match through_quote(bytes[0], &bytes[1..]) {
        Some(len) => len + 1,
        None => 0,
    }
}

/// How many bytes are before the line's end.
fn line_rest(bytes: &[u8]) -> usize
    ensures value { result ≡ line_rest bytes.now }
    ensures within { result ≤ length bytes.now }
{
    bytes.iter().take_while(|b| !is_line_end(**b)).count()
}

/// What is at a quote: a string, or only the quote if it is not closed on its line.
pub fn quoted(text: &str, place: usize, quotes: &mut OpenQuotes) -> Piece
    requires place { place < length text.now }
    requires boundary { IsCharBoundary text.now place }
    requires quote { is_quote (slice_index text.now place) ≡ true }
    requires quotes { AreOpen text.now place quotes.old }
    ensures value { result ≡ piece_at (drop place text.now) }
    ensures quotes { AreOpen text.now place quotes.new }
{
    let rest = text[place..].as_bytes();
    let quote = rest[0];
    if place < quotes.reach(quote) {
        return Piece::Found(TokenKind::Other, 1);
    }
    let len = string_len(rest);
    if len > 0 {
        return Piece::Found(TokenKind::String, len);
    }
    quotes.extend(quote, place + line_rest(rest));
    Piece::Found(TokenKind::Other, 1)
}
