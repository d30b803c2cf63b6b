//! A server that stays: sessions over TCP come and go, each with a free seat of one shared workbench, whose history begins again once it is full.
#![tactic(auto)]

mod close;
mod hosting;
mod keeper;
mod laws;
mod leases;
mod pace;
mod receipt_store;
mod reply_writer;
mod session;
mod session_desk;
mod session_receipts;
mod threads;

pub use fb_admission::{EntranceConfig, FIRST_LINE_TIMEOUT, FIRST_LINES};
pub use fb_shared::bench::Identity;
pub use hosting::{COMMIT_WAIT, HostConfig, KEY_TIMEOUT, REPLY_TIMEOUT, host_on};
pub use laws::reads_go_on;
pub use leases::Leases;
pub use pace::Pace;
pub use receipt_store::ReceiptStore;
pub use session::{SessionResult, give_back_all, run_host_session};
pub use session_desk::SessionDesk;
pub use session_receipts::SessionReceipts;
