//! Who comes in at a host: connections as they come, what each says first, the queue for free seats, and what a host prints.
#![tactic(auto)]

mod admission;
mod arrivals;
mod connection;
mod connection_queue;
mod head;
mod looks;
mod notices;

pub use admission::{Admission, Entrance, EntranceConfig, FIRST_LINE_TIMEOUT, FIRST_LINES};
pub use connection::{Connection, ConnectionReader};
pub use connection_queue::ConnectionQueue;
pub use head::{begins_request, take_proof};
pub use notices::{Notice, Notices, print_notices};
