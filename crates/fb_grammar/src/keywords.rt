//! Reserved words and symbols.
ghost use Rattle.std.specs.{Prelude.{◌≡◌, ◌∷◌, [], map, nat_eq}, Map.{lookup}, Cmp.Lexicographic.{pointwise}};
ghost use Rattle.fb_tree.specs.Text.Forms.{same_word};
ghost use Rattle.fb_grammar.specs.{ReservedWords.{keyword, symbol}, ByLength.{initial, words_between, symbols_of}, Upcoming.{lone_symbol}};

use crate::kind::Kind;
use fb_tree::text::same_word;

/// The first letter in lower case, 0 if there is none.
fn initial(word: &[u8]) -> u8
    ensures { result ≡ initial word.now }
{
    match word {
        [first, ..] => first.to_ascii_lowercase(),
        [] => 0,
    }
}

/// Whether the two are one word in any case; most words differ in their first letters.
#[tactic(auto, using(crate::proofs::Lookups::other_initial))]
fn is_word(word: &[u8], spelling: &[u8]) -> bool
    ensures { result ≡ same_word word.now spelling.now }
{
    initial(word) == initial(spelling) && same_word(word, spelling)
}

/// The kind of the first of these words that this is in any case.
fn among(word: &[u8], words: &[(&[u8], Kind)]) -> Option<Kind>
    ensures { result ≡ lookup (same_word word.now) (map (λ e. (e.0.now, e.1)) words.now) }
{
    for (spelling, kind) in words {
        if is_word(word, spelling) {
            return Some(*kind);
        }
    }
    None
}

/// The reserved words of 2 letters.
#[tactic(auto, unfolding(crate::specs::ByLength::words_between))]
fn word_of_2(word: &[u8]) -> Option<Kind>
    ensures { result ≡ lookup (same_word word.now) (words_between 2 2) }
{
    among(
        word,
        &[
            (b"TO", Kind::To),
            (b"OF", Kind::Of),
            (b"IF", Kind::If),
            (b"BY", Kind::By),
            (b"DO", Kind::Do),
            (b"OR", Kind::Or),
        ],
    )
}

/// The reserved words of 3 letters.
#[tactic(auto, unfolding(crate::specs::ByLength::words_between))]
fn word_of_3(word: &[u8]) -> Option<Kind>
    ensures { result ≡ lookup (same_word word.now) (words_between 3 3) }
{
    among(
        word,
        &[
            (b"VAR", Kind::Var),
            (b"FBS", Kind::Fbs),
            (b"FOR", Kind::For),
            (b"AND", Kind::And),
            (b"XOR", Kind::Xor),
            (b"NOT", Kind::Not),
            (b"MOD", Kind::Mod),
        ],
    )
}

/// The reserved words of 4 letters.
#[tactic(auto, unfolding(crate::specs::ByLength::words_between))]
fn word_of_4(word: &[u8]) -> Option<Kind>
    ensures { result ≡ lookup (same_word word.now) (words_between 4 4) }
{
    among(
        word,
        &[
            (b"WITH", Kind::With),
            (b"THEN", Kind::Then),
            (b"ELSE", Kind::Else),
            (b"CASE", Kind::Case),
            (b"EXIT", Kind::Exit),
            (b"TRUE", Kind::True),
            (b"TYPE", Kind::TypeWord),
        ],
    )
}

/// The reserved words of 5 letters.
#[tactic(auto, unfolding(crate::specs::ByLength::words_between))]
fn word_of_5(word: &[u8]) -> Option<Kind>
    ensures { result ≡ lookup (same_word word.now) (words_between 5 5) }
{
    among(
        word,
        &[
            (b"PLUGS", Kind::Plugs),
            (b"ARRAY", Kind::Array),
            (b"ELSIF", Kind::Elsif),
            (b"WHILE", Kind::While),
            (b"UNTIL", Kind::Until),
            (b"FALSE", Kind::False),
        ],
    )
}

/// The reserved words of 6 letters.
#[tactic(auto, unfolding(crate::specs::ByLength::words_between))]
fn word_of_6(word: &[u8]) -> Option<Kind>
    ensures { result ≡ lookup (same_word word.now) (words_between 6 6) }
{
    among(
        word,
        &[
            (b"SYSTEM", Kind::System),
            (b"DEVICE", Kind::Device),
            (b"END_IF", Kind::EndIf),
            (b"REPEAT", Kind::Repeat),
            (b"RETURN", Kind::Return),
            (b"STRUCT", Kind::Struct),
        ],
    )
}

/// The reserved words of 7 letters.
#[tactic(auto, unfolding(crate::specs::ByLength::words_between))]
fn word_of_7(word: &[u8]) -> Option<Kind>
    ensures { result ≡ lookup (same_word word.now) (words_between 7 7) }
{
    among(
        word,
        &[
            (b"ADAPTER", Kind::Adapter),
            (b"END_VAR", Kind::EndVar),
            (b"SOCKETS", Kind::Sockets),
            (b"END_FBS", Kind::EndFbs),
            (b"SUBAPPS", Kind::Subapps),
            (b"SERVICE", Kind::Service),
            (b"END_FOR", Kind::EndFor),
        ],
    )
}

/// The reserved words of 8 letters.
#[tactic(auto, unfolding(crate::specs::ByLength::words_between))]
fn word_of_8(word: &[u8]) -> Option<Kind>
    ensures { result ≡ lookup (same_word word.now) (words_between 8 8) }
{
    among(
        word,
        &[
            (b"RESOURCE", Kind::Resource),
            (b"MAPPINGS", Kind::Mappings),
            (b"END_CASE", Kind::EndCase),
            (b"END_TYPE", Kind::EndType),
        ],
    )
}

/// The reserved words of 9 letters.
#[tactic(auto, unfolding(crate::specs::ByLength::words_between))]
fn word_of_9(word: &[u8]) -> Option<Kind>
    ensures { result ≡ lookup (same_word word.now) (words_between 9 9) }
{
    among(
        word,
        &[
            (b"END_EVENT", Kind::EndEvent),
            (b"VAR_INPUT", Kind::VarInput),
            (b"END_PLUGS", Kind::EndPlugs),
            (b"EC_STATES", Kind::EcStates),
            (b"ALGORITHM", Kind::Algorithm),
            (b"END_WHILE", Kind::EndWhile),
        ],
    )
}

/// The reserved words of 10 letters.
#[tactic(auto, unfolding(crate::specs::ByLength::words_between))]
fn word_of_10(word: &[u8]) -> Option<Kind>
    ensures { result ≡ lookup (same_word word.now) (words_between 10 10) }
{
    among(
        word,
        &[
            (b"END_SYSTEM", Kind::EndSystem),
            (b"END_DEVICE", Kind::EndDevice),
            (b"VAR_OUTPUT", Kind::VarOutput),
            (b"END_STATES", Kind::EndStates),
            (b"END_REPEAT", Kind::EndRepeat),
            (b"END_STRUCT", Kind::EndStruct),
        ],
    )
}

/// The reserved words of 11 letters.
#[tactic(auto, unfolding(crate::specs::ByLength::words_between))]
fn word_of_11(word: &[u8]) -> Option<Kind>
    ensures { result ≡ lookup (same_word word.now) (words_between 11 11) }
{
    among(
        word,
        &[
            (b"END_ADAPTER", Kind::EndAdapter),
            (b"APPLICATION", Kind::Application),
            (b"EVENT_INPUT", Kind::EventInput),
            (b"END_SOCKETS", Kind::EndSockets),
            (b"END_SUBAPPS", Kind::EndSubapps),
            (b"END_SERVICE", Kind::EndService),
        ],
    )
}

/// The reserved words of 12 to 13 letters.
#[tactic(auto, unfolding(crate::specs::ByLength::words_between))]
fn word_of_12_to_13(word: &[u8]) -> Option<Kind>
    ensures { result ≡ lookup (same_word word.now) (words_between 12 13) }
{
    among(
        word,
        &[
            (b"END_RESOURCE", Kind::EndResource),
            (b"END_MAPPINGS", Kind::EndMappings),
            (b"EVENT_OUTPUT", Kind::EventOutput),
            (b"END_ALGORITHM", Kind::EndAlgorithm),
        ],
    )
}

/// The reserved words of 14 letters.
#[tactic(auto, unfolding(crate::specs::ByLength::words_between))]
fn word_of_14(word: &[u8]) -> Option<Kind>
    ensures { result ≡ lookup (same_word word.now) (words_between 14 14) }
{
    among(
        word,
        &[
            (b"FUNCTION_BLOCK", Kind::FunctionBlock),
            (b"SUBAPPLICATION", Kind::Subapplication),
            (b"EC_TRANSITIONS", Kind::EcTransitions),
        ],
    )
}

/// The reserved words of 15 to 16 letters.
#[tactic(auto, unfolding(crate::specs::ByLength::words_between))]
fn word_of_15_to_16(word: &[u8]) -> Option<Kind>
    ensures { result ≡ lookup (same_word word.now) (words_between 15 16) }
{
    among(
        word,
        &[
            (b"END_APPLICATION", Kind::EndApplication),
            (b"DATA_CONNECTIONS", Kind::DataConnections),
            (b"END_CONNECTIONS", Kind::EndConnections),
            (b"END_TRANSITIONS", Kind::EndTransitions),
        ],
    )
}

/// The reserved words of 17 to 19 letters.
#[tactic(auto, unfolding(crate::specs::ByLength::words_between))]
fn word_of_17_to_19(word: &[u8]) -> Option<Kind>
    ensures { result ≡ lookup (same_word word.now) (words_between 17 19) }
{
    among(
        word,
        &[
            (b"END_FUNCTION_BLOCK", Kind::EndFunctionBlock),
            (b"END_SUBAPPLICATION", Kind::EndSubapplication),
            (b"EVENT_CONNECTIONS", Kind::EventConnections),
            (b"ADAPTER_CONNECTIONS", Kind::AdapterConnections),
        ],
    )
}

/// The kind of a reserved word, in any case.
#[tactic(auto, using(crate::proofs::Lookups::keyword_by_length))]
pub fn keyword(word: &[u8]) -> Option<Kind>
    ensures { result ≡ keyword word.now }
{
    match word.len() {
        2 => word_of_2(word),
        3 => word_of_3(word),
        4 => word_of_4(word),
        5 => word_of_5(word),
        6 => word_of_6(word),
        7 => word_of_7(word),
        8 => word_of_8(word),
        9 => word_of_9(word),
        10 => word_of_10(word),
        11 => word_of_11(word),
        12..=13 => word_of_12_to_13(word),
        14 => word_of_14(word),
        15..=16 => word_of_15_to_16(word),
        17..=19 => word_of_17_to_19(word),
        _ => None,
    }
}

/// The symbols of one byte.
#[tactic(auto, unfolding(crate::specs::ByLength::symbols_of))]
fn symbol_of_1(b: u8) -> Option<Kind>
    ensures { result ≡ lookup (pointwise nat_eq (b ∷ [])) (symbols_of 1) }
{
    match b {
        b';' => Some(Kind::Semicolon),
        b':' => Some(Kind::Colon),
        b',' => Some(Kind::Comma),
        b'.' => Some(Kind::Point),
        b'(' => Some(Kind::OpenParenthesis),
        b')' => Some(Kind::CloseParenthesis),
        b'[' => Some(Kind::OpenBracket),
        b']' => Some(Kind::CloseBracket),
        b'=' => Some(Kind::Equal),
        b'<' => Some(Kind::Less),
        b'>' => Some(Kind::Greater),
        b'+' => Some(Kind::Plus),
        b'-' => Some(Kind::Minus),
        b'*' => Some(Kind::Times),
        b'/' => Some(Kind::Divide),
        b'&' => Some(Kind::Ampersand),
        _ => None,
    }
}

/// The symbol of one byte that begins no longer symbol and no comment.
#[tactic(auto, unfolding(crate::specs::ReservedWords::symbol))]
pub fn lone_symbol(b: u8) -> Option<Kind>
    ensures { result ≡ lone_symbol b }
{
    match b {
        b';' => Some(Kind::Semicolon),
        b',' => Some(Kind::Comma),
        b')' => Some(Kind::CloseParenthesis),
        b'[' => Some(Kind::OpenBracket),
        b']' => Some(Kind::CloseBracket),
        b'=' => Some(Kind::Equal),
        b'+' => Some(Kind::Plus),
        b'&' => Some(Kind::Ampersand),
        _ => None,
    }
}

/// The symbols of two bytes.
#[tactic(auto, unfolding(crate::specs::ByLength::symbols_of))]
fn symbol_of_2(a: u8, b: u8) -> Option<Kind>
    ensures { result ≡ lookup (pointwise nat_eq (a ∷ b ∷ [])) (symbols_of 2) }
{
    match (a, b) {
        (b':', b'=') => Some(Kind::Assign),
        (b'<', b'=') => Some(Kind::LessEqual),
        (b'>', b'=') => Some(Kind::GreaterEqual),
        (b'<', b'>') => Some(Kind::NotEqual),
        (b'*', b'*') => Some(Kind::Power),
        (b'-', b'>') => Some(Kind::Arrow),
        (b'.', b'.') => Some(Kind::Range),
        _ => None,
    }
}

/// The kind of a symbol.
pub fn symbol(bytes: &[u8]) -> Option<Kind>
    ensures { result ≡ symbol bytes.now }
{
    match bytes {
        [b] => symbol_of_1(*b),
        [a, b] => symbol_of_2(*a, *b),
        _ => None,
    }
}
