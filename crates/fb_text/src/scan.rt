//! The scanner: what a text begins with, found in one pass over its bytes.
ghost use Rattle.std.specs.{Prelude.{◌≡◌, ℕ, ◌+◌, ◌<◌, ◌≤◌, ◌==◌, not, length, true, false, nat_eq, drop, IfSome, slice_index}, List.{prefix_len}};
ghost use Rattle.std.specs.Str.{continuation_len, IsCharBoundary};
ghost use Rattle.fb_text.specs.Forms.{sign_len, same_word, is_date, is_real, is_value_byte, is_symbol_byte, is_symbol_pair};
ghost use Rattle.fb_text.specs.Scan.{exponent_len, fraction_len, number_tail_len, number_len, value_len, typed_tail_len, typed_len, symbol_len, AreOpen};
ghost use Rattle.fb_text.specs.{Bytes.{is_quote, is_word_byte}, Tokens.{before_close, comment_at, token_at, piece_at, FitsIn}};

use crate::bytes::{
    digit_run, is_blank, is_exponent_mark, is_quote, is_sign, is_word_byte, is_word_start,
    number_run, word_run,
};
use crate::quotes::{OpenQuotes, quoted};
use crate::token::TokenKind;

/// What is at a place of a text.
#[derive(Clone, Copy, Debug)]
pub enum Piece {
    /// A blank or a comment of this number of bytes.
    Gap(usize),
    /// A comment that is never closed.
    Unclosed,
    /// A token of this kind and length.
    Found(TokenKind, usize),
}

#[tactic(auto, unfolding(crate::specs::Forms::sign_len))]
fn sign_len(bytes: &[u8]) -> usize
    ensures value { result ≡ sign_len bytes.now }
    ensures within { result ≤ length bytes.now }
{
    match bytes {
        [b, ..] if is_sign(*b) => 1,
        _ => 0,
    }
}

/// The length of an exponent, 0 if there is none.
#[tactic(auto, unfolding(crate::specs::Scan::exponent_len))]
fn exponent_len(bytes: &[u8]) -> usize
    ensures value { result ≡ exponent_len bytes.now }
    ensures within { result ≤ length bytes.now }
{
    if bytes.is_empty() || !is_exponent_mark(bytes[0]) {
        return 0;
    }
    let rest = &bytes[1..];
    let sign = sign_len(rest);
    let digits = digit_run(&rest[sign..]);
    if digits == 0 { 0 } else { 1 + sign + digits }
}

/// The length of digits and an exponent, 0 if there is no digit.
#[tactic(auto, unfolding(crate::specs::Scan::fraction_len))]
fn fraction_len(bytes: &[u8]) -> usize
    ensures value { result ≡ fraction_len bytes.now }
    ensures within { result ≤ length bytes.now }
{
    let digits = digit_run(bytes);
    if digits == 0 {
        0
    } else {
        digits + exponent_len(&bytes[digits..])
    }
}

/// The length of what follows the digits of a number.
#[tactic(auto, unfolding(crate::specs::Scan::number_tail_len))]
fn number_tail_len(bytes: &[u8]) -> usize
    ensures value { result ≡ number_tail_len bytes.now }
    ensures within { result ≤ length bytes.now }
{
    if bytes.is_empty() {
        return 0;
    }
    let rest = &bytes[1..];
    let len = match bytes[0] {
        b'#' => word_run(rest),
        b'.' => fraction_len(rest),
        _ => 0,
    };
    if len == 0 { 0 } else { 1 + len }
}

/// The length of a number, whose first byte is a digit.
#[tactic(auto, unfolding(crate::specs::Scan::number_len))]
fn number_len(bytes: &[u8]) -> usize
    ensures value { result ≡ number_len bytes.now }
    ensures within { result ≤ length bytes.now }
{
    let whole = number_run(bytes);
    whole + number_tail_len(&bytes[whole..])
}

/// Whether two words are the same in any case.
pub fn same_word(a: &[u8], b: &[u8]) -> bool
    ensures { result ≡ same_word a.now b.now }
{
    a.eq_ignore_ascii_case(b)
}

/// The types of dates and times of day.
#[tactic(auto, unfolding(crate::specs::Forms::is_date))]
fn is_date(word: &[u8]) -> bool
    ensures { result ≡ is_date word.now }
{
    same_word(word, b"D")
        || same_word(word, b"DATE")
        || same_word(word, b"TOD")
        || same_word(word, b"TIME_OF_DAY")
        || same_word(word, b"DT")
        || same_word(word, b"DATE_AND_TIME")
}

/// The types of real numbers.
#[tactic(auto, unfolding(crate::specs::Forms::is_real))]
fn is_real(word: &[u8]) -> bool
    ensures { result ≡ is_real word.now }
{
    same_word(word, b"REAL") || same_word(word, b"LREAL")
}

/// Whether a byte belongs to a value, by its neighbours and the value's type.
#[tactic(auto, unfolding(crate::specs::Forms::is_value_byte))]
fn is_value_byte(date: bool, real: bool, before: u8, b: u8, after: u8) -> bool
    ensures { result ≡ is_value_byte date real before b after }
{
    if is_word_byte(b) || b == b'#' {
        return true;
    }
    after.is_ascii_digit()
        && (b == b'.'
            || (date && (b == b'-' || b == b':'))
            || (real && is_sign(b) && is_exponent_mark(before)))
}

/// The byte at a place, 0 past the end.
fn byte_at(bytes: &[u8], place: usize) -> u8
    ensures { result ≡ slice_index bytes.now place }
{
    bytes.get(place).copied().unwrap_or(0)
}

/// The length of a value after its `#` and sign.
fn value_len(date: bool, real: bool, bytes: &[u8]) -> usize
    ensures value { result ≡ value_len date real 35 bytes.now }
    ensures within { result ≤ length bytes.now }
{
    let mut before = b'#';
    let mut len = 0;
    while len < bytes.len() {
        let b = bytes[len];
        let after = byte_at(bytes, len + 1);
        if !is_value_byte(date, real, before, b, after) {
            return len;
        }
        before = b;
        len += 1;
    }
    len
}

/// The length of `#` and a value of the type that the word names, 0 if there is none.
#[tactic(auto, unfolding(crate::specs::Scan::typed_tail_len))]
fn typed_tail_len(word: &[u8], bytes: &[u8]) -> usize
    ensures value { result ≡ typed_tail_len (is_date word.now) (is_real word.now) bytes.now }
    ensures within { result ≤ length bytes.now }
{
    if bytes.is_empty() || bytes[0] != b'#' {
        return 0;
    }
    let rest = &bytes[1..];
    let sign = sign_len(rest);
    let value = value_len(is_date(word), is_real(word), &rest[sign..]);
    if value == 0 { 0 } else { 1 + sign + value }
}

/// The length of `#` and a value after the word at the beginning, 0 if there is none.
#[tactic(auto, unfolding(crate::specs::Scan::typed_len))]
pub fn typed_len(bytes: &[u8], word: usize) -> usize
    requires { word ≡ prefix_len is_word_byte bytes.now }
    ensures value { result ≡ typed_len bytes.now }
    ensures within { word + result ≤ length bytes.now }
{
    let (word, rest) = bytes.split_at(word);
    typed_tail_len(word, rest)
}

/// Whether a byte is a symbol.
#[tactic(auto, unfolding(crate::specs::Forms::is_symbol_byte))]
fn is_symbol_byte(b: u8) -> bool
    ensures { result ≡ is_symbol_byte b }
{
    matches!(
        b,
        b';' | b':'
            | b','
            | b'.'
            | b'('
            | b')'
            | b'['
            | b']'
            | b'='
            | b'<'
            | b'>'
            | b'+'
            | b'-'
            | b'*'
            | b'/'
            | b'&'
    )
}

/// Whether two bytes are a symbol.
#[tactic(auto, unfolding(crate::specs::Forms::is_symbol_pair))]
fn is_symbol_pair(a: u8, b: u8) -> bool
    ensures { result ≡ is_symbol_pair a b }
{
    match b {
        b'=' => a == b':' || a == b'<' || a == b'>',
        b'>' => a == b'<' || a == b'-',
        b'*' => a == b'*',
        b'.' => a == b'.',
        _ => false,
    }
}

/// The length of the symbol at the beginning, 0 if there is none.
#[tactic(auto, unfolding(crate::specs::Scan::symbol_len))]
fn symbol_len(bytes: &[u8]) -> usize
    ensures value { result ≡ symbol_len bytes.now }
    ensures within { result ≤ length bytes.now }
{
    match bytes {
        [a, b, ..] if is_symbol_pair(*a, *b) => 2,
        [a, ..] if is_symbol_byte(*a) => 1,
        _ => 0,
    }
}

/// How many bytes a character takes, by its first byte.
fn char_len(first: u8) -> usize
    ensures { result ≡ continuation_len first + 1 }
{
    if first < 0x80 {
        1
    } else if first < 0xe0 {
        2
    } else if first < 0xf0 {
        3
    } else {
        4
    }
}

/// How many bytes are before the first `*)`, if there is one.
fn before_close(bytes: &[u8]) -> Option<usize>
    ensures value { result ≡ before_close bytes.now }
    ensures within { IfSome result (λ n. n + 2 ≤ length bytes.now) }
{
    for i in 0..bytes.len() {
        if bytes[i..].starts_with(b"*)") {
            return Some(i);
        }
    }
    None
}

/// The length of the first line, without its end.
fn line_len(bytes: &[u8]) -> usize
    ensures value { result ≡ prefix_len (λ b. not (b == 10)) bytes.now }
    ensures within { result ≤ length bytes.now }
{
    bytes.iter().take_while(|b| **b != b'\n').count()
}

/// The comment at the beginning, which begins with `(*`.
#[tactic(auto, unfolding(crate::specs::Tokens::comment_at))]
fn comment(bytes: &[u8]) -> Piece
    requires { 2 ≤ length bytes.now }
    ensures { result ≡ comment_at bytes.now }
{
    match before_close(&bytes[2..]) {
        Some(len) => Piece::Gap(len + 4),
        None => Piece::Unclosed,
    }
}

/// The token at the beginning, if that is not a quote.
fn token(bytes: &[u8]) -> Piece
    requires some { 0 < length bytes.now }
    requires plain { is_quote (slice_index bytes.now 0) ≡ false }
    ensures { result ≡ token_at bytes.now }
{
    let first = bytes[0];
    if is_word_start(first) {
        let word = word_run(bytes);
        let typed = typed_len(bytes, word);
        if typed == 0 {
            return Piece::Found(TokenKind::Word, word);
        }
        return Piece::Found(TokenKind::Typed, word + typed);
    }
    if first.is_ascii_digit() {
        return Piece::Found(TokenKind::Number, number_len(bytes));
    }
    let symbol = symbol_len(bytes);
    if symbol > 0 {
        return Piece::Found(TokenKind::Symbol, symbol);
    }
    Piece::Found(TokenKind::Other, char_len(first))
}

/// What some bytes begin with, if that is not a quote.
#[tactic(auto, unfolding(crate::specs::Tokens::piece_at))]
fn scan(bytes: &[u8]) -> Piece
    requires some { 0 < length bytes.now }
    requires plain { is_quote (slice_index bytes.now 0) ≡ false }
    ensures { result ≡ piece_at bytes.now }
{
    if is_blank(bytes[0]) {
        Piece::Gap(1)
    } else if bytes.starts_with(b"(*") {
        comment(bytes)
    } else if bytes.starts_with(b"//") {
        Piece::Gap(line_len(bytes))
    } else {
        token(bytes)
    }
}

/// What is at a place of a text. `quotes` keeps what is known of the quotes before the line's end.
pub fn next_piece(text: &str, place: usize, quotes: &mut OpenQuotes) -> Piece
    requires place { place < length text.now }
    requires boundary { IsCharBoundary text.now place }
    requires quotes { AreOpen text.now place quotes.old }
    ensures value { result ≡ piece_at (drop place text.now) }
    ensures fits { FitsIn (drop place text.now) result }
    ensures quotes { AreOpen text.now place quotes.new }
{
    let rest = text[place..].as_bytes();
    if is_quote(rest[0]) {
        quoted(text, place, quotes)
    } else {
        scan(rest)
    }
}
