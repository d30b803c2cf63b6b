//! Structures (IEC 61131-3: structured data types).

use crate::interface::Variables;
use fb_text::NameUse;

/// The declaration of a structure. The fields are in the order of the text.
#[derive(Debug)]
pub struct Structure {
    pub name: NameUse,
    pub fields: Vec<Variables>,
}

impl Drop for Structure {
    fn drop(self) {
        let Self { name: _, fields: _ } = self;
    }
}
