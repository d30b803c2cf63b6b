//! System configurations (IEC 61499-1, clause 7).

use crate::network::{Network, Parameter};
use fb_text::NameUse;

/// An application: a network of instances.
#[derive(Debug)]
pub struct Application {
    pub name: NameUse,
    pub network: Network,
}

impl Drop for Application {
    fn drop(self) {
        let Self {
            name: _,
            network: _,
        } = self;
    }
}

/// A resource of a device.
#[derive(Debug)]
pub struct Resource {
    pub name: NameUse,
    pub type_name: NameUse,
    pub parameters: Vec<Parameter>,
}

impl Drop for Resource {
    fn drop(self) {
        let Self {
            name: _,
            type_name: _,
            parameters: _,
        } = self;
    }
}

/// A device with its resources.
#[derive(Debug)]
pub struct Device {
    pub name: NameUse,
    pub type_name: NameUse,
    pub parameters: Vec<Parameter>,
    pub resources: Vec<Resource>,
}

impl Drop for Device {
    fn drop(self) {
        let Self {
            name: _,
            type_name: _,
            parameters: _,
            resources: _,
        } = self;
    }
}

/// A mapping of an application, a block or a subapplication instance to a resource.
#[derive(Debug)]
pub struct Mapping {
    pub path: Vec<NameUse>,
    pub device: NameUse,
    pub resource: NameUse,
}

impl Drop for Mapping {
    fn drop(self) {
        let Self {
            path: _,
            device: _,
            resource: _,
        } = self;
    }
}

/// A system configuration.
#[derive(Debug)]
pub struct System {
    pub name: NameUse,
    pub applications: Vec<Application>,
    pub devices: Vec<Device>,
    pub mappings: Vec<Mapping>,
}

impl Drop for System {
    fn drop(self) {
        let Self {
            name: _,
            applications: _,
            devices: _,
            mappings: _,
        } = self;
    }
}
