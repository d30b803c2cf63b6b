//! Declarations.

use crate::chart::Chart;
use crate::interface::Interface;
use crate::network::Network;
use crate::structure::Structure;
use crate::system::System;
use fb_text::NameUse;

/// The declaration of a type. Sections are joined in the order of the text; what a kind of type can't have is empty.
pub struct TypeDeclaration {
    pub name: NameUse,
    pub interface: Interface,
    pub network: Network,
    pub chart: Chart,
}

impl Drop for TypeDeclaration {
    fn drop(self) {
        let Self {
            name: _,
            interface: _,
            network: _,
            chart: _,
        } = self;
    }
}

/// What a unit declares.
pub enum Decl {
    Block(TypeDeclaration),
    Adapter(TypeDeclaration),
    Subapplication(TypeDeclaration),
    System(System),
    Structure(Structure),
}

impl Drop for Decl {
    fn drop(self) {
        match self {
            Self::Block(_)
            | Self::Adapter(_)
            | Self::Subapplication(_)
            | Self::System(_)
            | Self::Structure(_) => {}
        }
    }
}
