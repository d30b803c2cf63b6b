//! Events and variables (IEC 61499-1, 5.2: interfaces of function block types).

use crate::constant::Constant;
use fb_text::{NameUse, Place};

/// Whether an event is an event input or an event output.
#[derive(Clone, Copy, Debug, PartialEq, Eq)]
pub enum Side {
    Input,
    Output,
}

/// An event with its type, if one is written, and the names after `WITH`.
#[derive(Debug)]
pub struct Event {
    pub side: Side,
    pub name: NameUse,
    pub type_name: Option<NameUse>,
    pub with: Vec<NameUse>,
}

impl Drop for Event {
    fn drop(self) {
        let Self {
            side: _,
            name: _,
            type_name: _,
            with: _,
        } = self;
    }
}

/// The section of a variable.
#[derive(Clone, Copy, Debug, PartialEq, Eq)]
pub enum Section {
    Input,
    Output,
    Internal,
    /// A field of a structure.
    Field,
}

/// How a type is written: `INT`, `STRING[80]` or `ARRAY [0..9] OF INT`.
#[derive(Clone, Copy, Debug, PartialEq, Eq)]
pub enum TypeForm {
    Plain,
    Sized,
    Array,
}

/// A type at the place of its use. If it is an array, the name is that of the elements.
#[derive(Debug)]
pub struct TypeUse {
    pub name: NameUse,
    pub form: TypeForm,
    pub span: Place,
}

impl Drop for TypeUse {
    fn drop(self) {
        let Self {
            name: _,
            form: _,
            span: _,
        } = self;
    }
}

// Each type that a declaration uses takes this number of bytes.
const _: () = prove!(size_of::<TypeUse>() == 48);

/// Variables that are declared together.
#[derive(Debug)]
pub struct Variables {
    pub section: Section,
    pub names: Vec<NameUse>,
    pub type_use: TypeUse,
    pub initial: Option<Constant>,
}

impl Drop for Variables {
    fn drop(self) {
        let Self {
            section: _,
            names: _,
            type_use: _,
            initial: _,
        } = self;
    }
}

/// The events and the variables of a type, internal variables among them. Plugs and sockets are in its network, with the instances,
/// whose name space they share.
#[derive(Debug)]
pub struct Interface {
    pub events: Vec<Event>,
    pub variables: Vec<Variables>,
}

impl Drop for Interface {
    fn drop(self) {
        let Self {
            events: _,
            variables: _,
        } = self;
    }
}
