//! The values of entries.
use fb_deploy::Deploy;
use fb_deploy::flatten::Net;
use fb_deploy::iface::Fault;

/// What an entry holds once it is not pending.
pub enum Value {
    Faults(Vec<Fault>),
    Net(Net),
    Deploy(Deploy),
}

impl Drop for Value {
    fn drop(self) {
        match self {
            Self::Faults(_) | Self::Net(_) | Self::Deploy(_) => {}
        }
    }
}
