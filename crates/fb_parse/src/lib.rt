//! Reading of the texts of units: the declaration that a text spells, or the place from which it can
//! no longer spell one.
#![tactic(auto)]

mod body;
mod chart;
mod contents;
mod frame;
mod sections;
mod source;
mod system;
mod units;

pub use body::{Body, one_body, one_tree};
pub use source::{ReadFault, Source, TextWithMentions};

/// Of `fb_text`, for the crates above.
pub mod text {
    pub use fb_tree::text::{Name, Span, sorted_names};
}

/// Of `fb_tree`, for the crates above.
pub mod tree {
    pub use fb_tree::{Decl, Mentions, Structure, TypeDeclaration, mentions_of};
}
