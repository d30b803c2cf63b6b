//! Servers whose peers talk one after another, wait for one another or for a worker, or fail.
use crate::play::{ALWAYS, compare, config_of};
use fb_program::wire::MemorySink;
use fb_serve::serve;
use std::alloc::Global;
use std::net::{Net, TcpListener, TcpStream};
use std::process::Abort;
use std::sync::Wait;
use std::test::Fail;
use std::thread::Threads;
use std::time::Clock;

const CLOSED: &str = "closed\nstatus 0\n";

const ONE: &str = r#"
== one session / 1 / 1 / 16 / 1000
@1 talk commit => {"commit":1}
{"op":"ask","kind":"net","unit":"A"} => {"refused":"NoSuchKey"}
"#;

const SESSIONS: &str = r#"
== two sessions, of which the second sees the commit of the first / 2 / 2 / 16 / 1000
@1 talk commit => {"commit":1}
{"op":"ask","kind":"net","unit":"A"} => {"refused":"NoSuchKey"}
@2 talk commit => {"current":1,"refused":"StaleBase","unit":"A"}
{"op":"commit","changes":[{"put":"B","base":0,"text":"FUNCTION_BLOCK B END_FUNCTION_BLOCK"}]} => {"commit":2}
{"op":"ask","kind":"net","unit":"B"} => {"refused":"NoSuchKey"}
== a session is not alone at its workbench, even without another one, and a request out of range is no request / 1 / 1 / 16 / 1000
@1 talk commit => {"commit":1}
{"op":"checkpoint","units":1,"history":9} => {"refused":"NotAlone"}
{"op":"checkpoint","units":1,"history":0} => {"refused":"BadRequest"}
{"op":"ask","kind":"net","unit":"A"} => {"refused":"NoSuchKey"}
== one unit and four calls, none of which a worker makes, as there is no unit / 1 / 1 / 1 / 4
@1 talk {"op":"commit","changes":[{"put":"A","base":0,"text":""},{"put":"B","base":0,"text":""}]} => {"refused":"TooManyUnits"}
{"op":"ask","kind":"net","unit":"A"} => {"refused":"NoSuchKey"}
{"op":"ask","kind":"net","unit":"A"} => {"refused":"NoSuchKey"}
{"op":"ask","kind":"net","unit":"A"} => {"refused":"NoSuchKey"}
{"op":"ask","kind":"net","unit":"A"} => {"refused":"HistoryFull"}
"#;

// With one good write the close is not printed.
#[test]
fn servers_and_their_sessions(rt: HostRuntime) -> Result<(), Fail> {
    compare(&rt, rt.alloc(), ONE, 1, &["status 1\n"])?;
    compare(&rt, rt.alloc(), ONE, ALWAYS, &[CLOSED])?;
    compare(&rt, rt.alloc(), SESSIONS, ALWAYS, &[CLOSED])
}

const PEERS: &str = r#"
== the second peer gets its reply while the first waits, which then sees its commit / 1 / 2 / 16 / 1000
@2 ask commit => {"commit":1}
@1 ask commit => {"current":1,"refused":"StaleBase","unit":"A"}
@2 talk
@1 talk
== a worker checks a unit / 1 / 1 / 16 / 1000000
@1 ask commit => {"commit":1}
@1 await {"op":"ask","kind":"faults","unit":"A"} => {"faults":[]}
@1 talk
== a worker makes a plan, and then its system is removed / 1 / 1 / 16 / 1000000
@1 ask {"op":"commit","changes":[{"put":"T","base":0,"text":"FUNCTION_BLOCK T END_FUNCTION_BLOCK"},{"put":"Y","base":0,"text":"SYSTEM Y APPLICATION A FBS B:T; END_FBS END_APPLICATION DEVICE D:DT RESOURCE R:RT END_RESOURCE END_DEVICE MAPPINGS A ON D.R; END_MAPPINGS END_SYSTEM"}]} => {"commit":1}
@1 await {"op":"ask","kind":"deploy","unit":"Y"} => {"deploy":{"cuts":[],"resources":[["D.R",["CREATE FB A.B T","START D.R"]]]}}
@1 ask {"op":"commit","changes":[{"remove":"Y","base":1}]} => {"commit":2}
@1 ask {"op":"ask","kind":"deploy","unit":"Y"} => {"refused":"NoSuchKey"}
@1 talk
== the first session ends, and workers work until the second does / 1 / 2 / 16 / 1000000
@1 ask commit => {"commit":1}
@1 await {"op":"ask","kind":"faults","unit":"A"} => {"faults":[]}
@1 talk
@2 rounds {"op":"ask","kind":"faults","unit":"A"} => {"faults":[]}
@2 talk
== each of many lines is answered, in a read of its own / 1 / 1 / 16 / 1000
@1 flood x => {"refused":"BadRequest"}
@1 talk
"#;

#[test]
fn sessions_and_workers(rt: HostRuntime) -> Result<(), Fail> {
    compare(&rt, rt.alloc(), PEERS, ALWAYS, &[CLOSED])
}

// What is written to the peer that has disconnected may be taken or fail.
#[test]
fn a_peer_goes_half_way(rt: HostRuntime) -> Result<(), Fail> {
    let play = r#"
== the second peer gets its reply, and the third sees its commit / 1 / 3 / 16 / 1000
@1 half {"op":"commit","changes":[{"put":"A" =>
@2 ask commit => {"commit":1}
@2 talk
@3 ask commit => {"current":1,"refused":"StaleBase","unit":"A"}
@3 talk
"#;
    let failed = "session 1: write failed\nclosed\nstatus 0\n";
    compare(&rt, rt.alloc(), play, ALWAYS, &[CLOSED, failed])
}

#[test]
fn a_session_fails_alone(rt: HostRuntime) -> Result<(), Fail> {
    let play = r#"
== a line too long / 1 / 3 / 16 / 1000
@1 talk commit => {"commit":1}
{"op":"ask","kind":"net","unit":"A"} => {"refused":"NoSuchKey"}
@2 overlong
@3 talk commit => {"current":1,"refused":"StaleBase","unit":"A"}
{"op":"commit","changes":[{"put":"B","base":0,"text":"FUNCTION_BLOCK B END_FUNCTION_BLOCK"}]} => {"commit":2}
{"op":"ask","kind":"net","unit":"B"} => {"refused":"NoSuchKey"}
"#;
    let failed = "session 2: line too long\nclosed\nstatus 0\n";
    compare(&rt, rt.alloc(), play, ALWAYS, &[failed])
}

#[test]
fn two_sessions_fail(rt: HostRuntime) -> Result<(), Fail> {
    let play = r#"
== a line too long, and a reset connection / 1 / 3 / 16 / 1000
@1 overlong
@2 reset commit => {
@3 talk commit => {"current":1,"refused":"StaleBase","unit":"A"}
"#;
    let failed = "session 1: line too long\nsession 2: read failed\nclosed\nstatus 0\n";
    compare(&rt, rt.alloc(), play, ALWAYS, &[failed])
}

// The second peer talks once the fault of the first session is printed.
#[test]
fn a_fault_is_told_at_once(rt: HostRuntime) -> Result<(), Fail> {
    let play = r#"
== a line too long / 1 / 2 / 16 / 1000
@1 overlong
@0 ask => session 1: line too long
@2 talk commit => {"commit":1}
"#;
    compare(&rt, rt.alloc(), play, ALWAYS, &[CLOSED])
}

// Compares whether a server without sessions closes, and whether it prints nothing, if its port is taken at this address.
fn serve_beside<
    R: Net<Listener = TcpListener, Stream = TcpStream> + Threads + Wait + Clock + Sync + Abort,
>(rt: &R, alloc: Global, address: &str, wanted: (bool, bool)) -> Result<(), Fail> {
    let config = config_of("no session / 1 / 0 / 16 / 1000")?;
    let listener = TcpListener::bind(rt, address)?;
    let port = listener.local_addr()?.port();
    let mut out = MemorySink::new(alloc, 100, ALWAYS);
    let mut errors = Vec::new(alloc);
    let ended = serve(rt, alloc, port, config, &mut out, &mut errors);
    let is_silent = out.as_slice().is_empty() && errors.is_empty();
    assert_eq!(rt; (ended.status == 0, is_silent), wanted, "{address}");
    Ok(())
}

#[test]
fn a_port_that_is_taken(rt: HostRuntime) -> Result<(), Fail> {
    serve_beside(&rt, rt.alloc(), "127.0.0.1:0", (false, true))
}

// No other address of this machine matters to it.
#[test]
fn one_address(rt: HostRuntime) -> Result<(), Fail> {
    serve_beside(&rt, rt.alloc(), "127.0.0.2:0", (true, false))
}
