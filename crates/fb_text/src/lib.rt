//! Names, places and tokens of the texts of IEC 61499 declarations.
#![tactic(auto)]

mod bytes;
mod compact_name;
mod eight;
mod elementary;
mod lexer;
mod name;
mod order;
mod place;
mod quotes;
mod scan;
mod short_name;
mod token;
mod wide_use;

pub use bytes::{is_blank, is_word_start, word_run};
pub use compact_name::CompactName;
pub use elementary::{TypeClass, is_elementary, type_class};
pub use lexer::{longest_token, one_reading, tokens};
pub use name::{Name, NameFault, NameUse};
pub use order::{names_once_and_in_order, once_and_in_order, same_name, sorted_names, sorted_once};
pub use place::Place;
pub use quotes::OpenQuotes;
pub use scan::{Piece, next_piece, same_word, typed_len};
pub use short_name::ShortName;
pub use token::{Span, Token, TokenFault, TokenKind};
pub use wide_use::WideUse;
