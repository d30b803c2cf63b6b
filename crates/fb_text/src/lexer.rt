//! The tokens of a text.
ghost use Rattle.std.specs.Prelude.{◌≡◌, ◌≢◌, ℕ, List, Result, length, IfOk, All};
ghost use Rattle.fb_text.specs.{Tokens.{tokens_of, token_at, GivesReading, IsLongest, IsSpelled, LiesIn, SpansRise, spans_of}, Reads.{Reads}};
ghost use Rattle.fb_text.specs.{declared.token.Span.{Span}, declared.token.Token.{Token}, declared.scan.Piece.TheVariants.{Found}};
ghost use Rattle.fb_text.specs.{declared.token.TokenKind.{TokenKind}, declared.token.TokenKind.TheVariants.{Other}};

use crate::quotes::OpenQuotes;
use crate::scan::{Piece, next_piece};
use crate::token::{Span, Token, TokenFault};
use std::alloc::Global;

/// The tokens of a text, in order. Blanks and comments are not tokens.
pub fn tokens(alloc: Global, text: &str) -> Result<Vec<Token>, TokenFault>
    ensures exact { GivesReading result (tokens_of text.now) }
    ensures within { IfOk result (λ tokens. All (λ t. LiesIn text.now t.span) tokens.items) }
    ensures spelled { IfOk result (λ tokens. All (IsSpelled text.now) tokens.items) }
    ensures rise { IfOk result (λ tokens. SpansRise 0 (length text.now) (spans_of tokens.items)) }
{
    let mut tokens = Vec::new(alloc);
    let mut quotes = OpenQuotes::new();
    let mut place = 0;
    // Without memory the text is still read to its end, since a comment that is never closed is answered first.
    let mut refused = false;
    while place < text.len() {
        match next_piece(text, place, &mut quotes) {
            Piece::Gap(len) => place += len,
            Piece::Unclosed => {
                let bad = Span {
                    start: place,
                    end: text.len(),
                };
                return Err(TokenFault::BadToken(bad));
            }
            Piece::Found(kind, len) => {
                let span = Span {
                    start: place,
                    end: place + len,
                };
                if !refused {
                    refused = tokens.push(Token { kind, span }).is_err();
                }
                place += len;
            }
        }
    }
    if refused {
        return Err(TokenFault::Memory);
    }
    Ok(tokens)
}

/// A token of another kind than `Other` is the longest prefix of what is left that has a form.
pub fn longest_token()
    ensures { (text : List ℕ) (kind : TokenKind) (n : ℕ) → token_at text ≡ Found kind n
        → kind ≢ Other → IsLongest text kind n }
{}

/// Each text has one reading by the relation `Reads`, and it is the tokens of the text.
pub fn one_reading()
    ensures reads { (text : List ℕ) → Reads 0 text (tokens_of text) }
    ensures one { (text : List ℕ) (reading : Result (List Token) Span) → Reads 0 text reading
        → reading ≡ tokens_of text }
{}
