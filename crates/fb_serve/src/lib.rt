//! The server: sessions over TCP, each with a seat of one shared workbench, and workers beside them.
#![tactic(auto)]

mod caller_state;
mod callers;
mod say;
mod server;
mod session;
mod worker;

pub use caller_state::{CallerState, Held, forget, give_back_held, hold};
pub use callers::TURNS;
pub use say::{greet, say_error};
pub use server::{Ended, NotServed, Served, ServerConfig, serve, serve_on, serve_sessions};
pub use session::{Session, run_session};
pub use worker::{keep_working, pause};
