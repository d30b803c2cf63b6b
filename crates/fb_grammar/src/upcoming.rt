//! The tokens of a text that are still to be read. Each is found when the one before it is taken, and no list of them is made.
ghost use Rattle.fb_grammar.specs.{Kind.{is_among, name_kinds}, Lexemes.{lexemes_of}, Pulled.{IsFront, IsNext}};
ghost use Rattle.fb_grammar.specs.Upcoming.{are_over, closing, front, tokens_to_end, unended};
ghost use Rattle.fb_tree.specs.{Text.Bytes.{is_word_byte, is_word_start}, Text.Scan.{AreOpen, typed_len}, Text.Tokens.{LiesIn}, Text.Words.{is_word}};
ghost use Rattle.std.specs.{List.{prefix_len}, Prelude.{◌≡◌, ℕ, ◌+◌, ◌<◌, ◌≤◌, false, true, All, List, drop, length, slice_index}};
ghost use Rattle.std.specs.Str.{IsCharBoundary, IsUtf8, str_to_ascii_uppercase};

use crate::keywords::lone_symbol;
use crate::kind::Kind;
use crate::lexeme::{kind_of, word_kind};
use fb_tree::text::{
    OpenQuotes, Piece, Place, TokenKind, is_blank, is_word_start, next_piece, typed_len, word_run,
};
use std::marker::Model;

/// The tokens of a text from one of them on, and then its end or a comment that is never closed. A contract sees the list of these.
#[derive(Drop)]
pub struct Tokens<'t> {
    text: &'t str,
    next: Front,
    quotes: OpenQuotes,
}

impl<'t> Model for Tokens<'t> {
    ghost use Rattle.fb_grammar.specs.declared.lexeme.Lexeme.{Lexeme};
    ghost use Rattle.std.specs.Prelude.{List};

    ghost Value = { List Lexeme };

    ghost use Rattle.fb_grammar.specs.Pulled.{IsPulled, pulled};

    ghost view = { pulled };

    ghost invariant = { IsPulled };
}

impl<'t> Tokens<'t> {
    /// All tokens of a text of less than 4 GiB.
    pub fn of(text: &'t str) -> Tokens<'t>
        requires { length text.now < 4294967296 }
        ensures { result ≡ tokens_to_end text.now }
    {
        let mut quotes = OpenQuotes::new();
        let next = next_front(text, 0, &mut quotes);
        Tokens { text, next, quotes }
    }

    /// The kind of the next token. There is always one, or what comes after all tokens.
    pub fn kind(&self) -> Kind
        ensures kind { result ≡ (front self.now).kind }
        ensures some { 0 < length self.now }
    {
        self.next.kind
    }

    /// The place of the next token.
    pub fn place(&self) -> Place
        ensures { result ≡ (front self.now).span }
    {
        self.next.place
    }

    /// Whether no token is left.
    pub fn is_over(&self) -> bool
        ensures { result ≡ are_over self.now }
    {
        self.next.kind.is_among(&[Kind::End, Kind::NeverClosed])
    }

    /// The word that the next token is, if it is a name.
    pub(crate) fn spelling(&self) -> &'t str
        requires { is_among name_kinds (front self.now).kind ≡ true }
        ensures word { is_word result.now ≡ true }
        ensures short { length result.now ≤ 64 }
        ensures name { str_to_ascii_uppercase result.now ≡ (front self.now).name }
    {
        &self.text[self.next.place.start() as usize..self.next.place.end() as usize]
    }

    /// Goes past the next token.
    pub fn take(&mut self)
        requires { are_over self.old ≡ false }
        ensures { self.new ≡ drop 1 self.old }
    {
        self.next = next_front(self.text, self.next.place.end() as usize, &mut self.quotes);
    }

    /// The comment that is never closed, if there is one, after all tokens that are left.
    pub fn unclosed(mut self) -> Option<Place>
        ensures { result ≡ closing self.entry }
    {
        while !self.is_over() {
            self.take();
        }
        match self.next.kind {
            Kind::NeverClosed => Some(self.next.place),
            _ => None,
        }
    }
}

/// A token, or what comes after all tokens: its kind and its place.
#[derive(Clone, Copy)]
struct Front {
    kind: Kind,
    place: Place,
}

/// A token of this kind, from a place up to another.
fn front_at(kind: Kind, start: usize, end: usize) -> Front
    requires rises { start ≤ end }
    requires short { end < 4294967296 }
    ensures { result ≡ record { kind = kind; place = record { start = start; end = end } } }
{
    Front {
        kind,
        place: Place::new(start as u32, end as u32),
    }
}

/// The length of `#` and a value after the word at the beginning, 0 if there is none. A word that no `#` follows is not read again.
fn typed_run(bytes: &[u8], word: usize) -> usize
    requires { word ≡ prefix_len is_word_byte bytes.now }
    ensures value { result ≡ typed_len bytes.now }
    ensures within { word + result ≤ length bytes.now }
{
    if word < bytes.len() && bytes[word] == b'#' {
        typed_len(bytes, word)
    } else {
        0
    }
}

/// The word or typed literal at a place.
fn word_at(text: &str, place: usize) -> Front
    requires place { place < length text.now }
    requires boundary { IsCharBoundary text.now place }
    requires short { length text.now < 4294967296 }
    requires word { is_word_start (slice_index text.now place) ≡ true }
    ensures start { result.place.start ≡ place }
    ensures front { IsFront text.now result.kind result.place }
{
    let rest = &text.as_bytes()[place..];
    let word = word_run(rest);
    let typed = typed_run(rest, word);
    if typed == 0 {
        return front_at(word_kind(&rest[..word]), place, place + word);
    }
    let end = word + typed;
    let kind = kind_of(TokenKind::Typed, &rest[..end]);
    front_at(kind, place, place + end)
}

/// The token at a place or the first after it, or what comes after all tokens.
fn next_front(text: &str, from: usize, quotes: &mut OpenQuotes) -> Front
    requires boundary { IsCharBoundary text.now from }
    requires short { length text.now < 4294967296 }
    requires quotes { AreOpen text.now from quotes.old }
    ensures { IsNext text.now from result.kind result.place quotes.new }
{
    let bytes = text.as_bytes();
    let mut place = from;
    while place < bytes.len() {
        let first = bytes[place];
        if is_blank(first) {
            place += 1;
        } else if is_word_start(first) {
            return word_at(text, place);
        } else if let Some(kind) = lone_symbol(first) {
            return front_at(kind, place, place + 1);
        } else {
            match next_piece(text, place, quotes) {
                Piece::Gap(len) => place += len,
                Piece::Unclosed => return front_at(Kind::NeverClosed, place, bytes.len()),
                Piece::Found(kind, len) => {
                    let end = place + len;
                    return front_at(kind_of(kind, &bytes[place..end]), place, end);
                }
            }
        }
    }
    front_at(Kind::End, bytes.len(), bytes.len())
}

/// What is pulled of a text are its tokens, and then its end or a comment that is never closed. All of this is inside the text.
pub fn tokens_are_pulled()
    ensures tokens { (text : List ℕ) → unended (tokens_to_end text) ≡ lexemes_of text }
    ensures within { (text : List ℕ) → IsUtf8 text
        → All (λ token. LiesIn text token.span) (tokens_to_end text) }
{}
