//! The settings of the program.

use fb_wire::bench::Limits;

/// What a server that stays is asked to be.
#[derive(Clone, Copy)]
pub struct HostSettings<'a> {
    /// The port that it listens on, or 0 for any free one.
    pub port: u16,
    /// How many workers there are.
    pub workers: u8,
    /// How many sessions there are at once.
    pub sessions: u8,
    /// How many units there may be, and after how many calls the history begins again.
    pub limits: Limits,
    /// After how many bytes of texts the history begins again.
    pub memory: u64,
    /// The file whose first line is the secret.
    pub secret: Option<&'a str>,
    /// Whether there is no secret.
    pub is_open: bool,
    /// How many minutes a session may be silent, or 0 if it may be so forever.
    pub idle: u64,
    /// After how many sessions it closes.
    pub connections: u64,
}

/// What the program is asked to do.
#[derive(Clone, Copy)]
pub enum Settings<'a> {
    /// To answer the requests of one input: how many units there may be, and how many calls may be recorded.
    Script {
        units: u64,
        history: u64,
    },
    /// To answer the requests of connections: the port that it listens on, or 0 for any free one, how many workers there are, the number of connections after
    /// which it closes, and the limits of its workbench, as above.
    Serve {
        port: u16,
        workers: u8,
        sessions: u8,
        units: u64,
        history: u64,
    },
    /// To answer the requests of connections that come and go.
    Host(HostSettings<'a>),
}
