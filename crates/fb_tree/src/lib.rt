//! Trees of declarations: what the text of a unit declares, with the place of each name, operator and condition.
//!
//! Items are in the order of the text, and those of one name space in one list. A contract sees a tree without its addresses
//! in memory, as `specs/Tree.antt` has it.
#![tactic(auto)]

mod chart;
mod constant;
mod declaration;
mod expression;
mod interface;
mod kinds;
mod mention;
mod mentioned;
mod network;
mod reference;
mod statement;
mod structure;
mod system;

pub use chart::{Action, Algorithm, Chart, Condition, State, Transition};
pub use constant::{Constant, Literal, LiteralForm, Simple};
pub use declaration::{Decl, TypeDeclaration};
pub use expression::{BinaryOperator, BinaryUse, Expr, UnaryOperator, UnaryUse};
pub use interface::{Event, Interface, Section, Side, TypeForm, TypeUse, Variables};
pub use kinds::{UnitKind, kind};
pub use mention::mentions;
pub use mentioned::{Mentions, mention_the_same, mentions_of};
pub use network::{Connection, End, Instance, Network, Parameter, Role, Sort};
pub use reference::{Member, Reference, ReferenceNames};
pub use statement::{Counting, Stmt};
pub use structure::Structure;
pub use system::{Application, Device, Mapping, Resource, System};

/// Of `fb_text`, for the crates above.
pub mod text {
    pub use fb_text::{
        CompactName, Name, NameUse, OpenQuotes, Piece, Place, Span, Token, TokenFault, TokenKind,
        TypeClass, WideUse, is_blank, is_elementary, is_word_start, next_piece, same_name,
        same_word, sorted_names, sorted_once, tokens, type_class, typed_len, word_run,
    };
}
