//! The grammar of IEC 61499 declarations: tokens as it sees them, the forms that it is written in, what spells them, and reading
//! by them.
#![tactic(auto)]

mod keywords;
mod kind;
mod lexeme;
mod literals;
mod naming;
mod repetition;
mod stop;
mod upcoming;

pub use kind::{Kind, own_numbers};
pub use lexeme::{Lexeme, lexemes, names_are_words};
pub use literals::{NUMBERS, literal_form, literal_use};
pub use naming::{NAMES, NameReader, Taken, is_next, key, name, name_of, names, one_of};
pub use repetition::{Reader, listed, separated, several};
pub use stop::Stop;
pub use upcoming::{Tokens, tokens_are_pulled};
