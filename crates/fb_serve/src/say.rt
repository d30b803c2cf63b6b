//! Lines that a server prints.
ghost use Rattle.std.specs.Prelude.{◌≡◌, ◌<◌, ◌^◌, ℕ, IfOk, false};
ghost use Rattle.fb_streams.specs.Streams.{WritesAll};
ghost use Rattle.fb_serve.specs.Lines.{greeting};

use fb_wire::{RunError, Sink, StreamError, write_all};
use std::alloc::Global;
use std::io::Write;
use std::net::TcpListener;

/// Prints the address of the server. It fails if this is not known or not written.
pub fn greet<S: Sink>(alloc: Global, listener: &TcpListener, out: &mut S) -> Result<(), StreamError>
    requires { S.has_failed out.old ≡ false }
    ensures held { (port : ℕ) × (port < 2 ^ 16)
        × WritesAll (S.held out.old) (greeting port) result (S.held out.new) }
    ensures failed { IfOk result (λ _. S.has_failed out.new ≡ false) }
{
    let Ok(address) = listener.local_addr() else {
        return Err(StreamError);
    };
    let port = address.port();
    let Ok(line) = format!(in alloc; "listening on 127.0.0.1:{port}\n") else {
        return Err(StreamError);
    };
    write_all(out, line.as_bytes())
}

/// Prints the fault of a session.
pub fn say_error<E: Write>(errors: &mut E, caller: u32, error: RunError) {
    let _ = writeln!(errors, "session {caller}: {error}");
}
