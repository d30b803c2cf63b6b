//! The secret of a host: how a host and its client prove to each other that both have it, with none of it sent.
//!
//! A host sends a challenge, a client answers with its proof and a challenge of its own, and the host proves itself in turn. A proof is an HMAC-SHA256 of both
//! challenges under the secret, so one who listens learns nothing that serves at another connection.
#![tactic(auto)]

mod exchange;
mod file;
mod hmac;
mod laws;

pub use exchange::{challenge, challenge_line, client_line, host_answer};
pub use file::{NoSecret, is_private, refuse_open_file, refuse_secret, secret_in};
pub use hmac::hmac_sha256;
pub use laws::proofs_are_for_one_exchange;
