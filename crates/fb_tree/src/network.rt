//! Instances and connections (IEC 61499-1, 5.3 and 5.4: composite types and subapplication types; 5.5: adapters).

use crate::constant::Constant;
use fb_text::NameUse;

/// The section of an instance.
#[derive(Clone, Copy, Debug, PartialEq, Eq)]
pub enum Role {
    Plug,
    Socket,
    Block,
    Subapplication,
}

/// A parameter of an instance with its value.
#[derive(Debug)]
pub struct Parameter {
    pub name: NameUse,
    pub value: Constant,
}

impl Drop for Parameter {
    fn drop(self) {
        let Self { name: _, value: _ } = self;
    }
}

/// An instance with the name of its type.
#[derive(Debug)]
pub struct Instance {
    pub role: Role,
    pub name: NameUse,
    pub type_name: NameUse,
    pub parameters: Vec<Parameter>,
}

impl Drop for Instance {
    fn drop(self) {
        let Self {
            role: _,
            name: _,
            type_name: _,
            parameters: _,
        } = self;
    }
}

/// What flows through a connection.
#[derive(Clone, Copy, Debug, PartialEq, Eq)]
pub enum Sort {
    Event,
    Data,
    Adapter,
}

/// An end of a connection: an own port, or a port of an instance.
#[derive(Debug)]
pub struct End {
    pub name: NameUse,
    pub port: Option<NameUse>,
}

impl Drop for End {
    fn drop(self) {
        let Self { name: _, port: _ } = self;
    }
}

/// A connection.
#[derive(Debug)]
pub struct Connection {
    pub sort: Sort,
    pub source: End,
    pub destination: End,
}

impl Drop for Connection {
    fn drop(self) {
        let Self {
            sort: _,
            source: _,
            destination: _,
        } = self;
    }
}

// Each connection takes this number of bytes.
const _: () = prove!(size_of::<Connection>() == 152);

/// Plugs, sockets and instances in one list, and the connections.
#[derive(Debug)]
pub struct Network {
    pub instances: Vec<Instance>,
    pub connections: Vec<Connection>,
    /// There was a section of block instances or of connections, perhaps an empty one.
    pub is_written: bool,
}

impl Drop for Network {
    fn drop(self) {
        let Self {
            instances: _,
            connections: _,
            is_written: _,
        } = self;
    }
}
