//! Hosts in this process, each with its peers.
//!
//! A text has conversations, each a heading and steps. A heading is `== TITLE / SETTING VALUE / SETTING VALUE`, and so on. The settings are `connections`:
//! after how many sessions the host closes, and `calls`: how many are made, and how many of them since the start of the history, or `any`. Unless others are
//! there, a host has `sessions 1`, `workers 0`, `units 100`, `history 20`, `first-lines 1000`, `first-line 600000`, which are milliseconds, `idle 0`, and as its identity the
//! numbers `high 0` and `low 0`; no `secret`, 32 zeros as the key of its challenges, `reply 600000` and `key 600000`, which are milliseconds too,
//! and it prints no `errors`, which may be `any` too. With `failing yes` the system gives no connection if none waits.
ghost use Rattle.std.specs.Thread.{IsSync};

use crate::steps::{first_wrong, lines_in};
use fb_host::{COMMIT_WAIT, EntranceConfig, HostConfig, Identity, host_on};
use fb_serve::Ended;
use fb_wire::MemorySink;
use fb_wire::bench::Limits;
use std::alloc::{AllocError, Global};
use std::net::{Net, OpenListener, TcpListener, TcpStream};
use std::process::Abort;
use std::sync::atomic::{AtomicBool, Ordering};
use std::sync::{Mutex, Wait};
use std::test::Fail;
use std::thread;
use std::thread::{Threads, join};
use std::time::{Clock, Duration};

/// How often it is looked whether the host has ended, and how many milliseconds pass from one look to the next.
const LOOKS: u32 = 10_000;

const PAUSE: u64 = 2;

/// What a host printed, and its close: how many calls were made, how many of them since the start, and how many receipts there are.
type Hosted = (Vec<u8>, Option<(u64, usize, usize)>);

// The value of a setting in a heading, or this one if it is not there.
fn setting<'a>(heading: &'a str, name: &str, default: &'a str) -> &'a str {
    for part in heading.split(" / ") {
        if let Some((word, value)) = part.split_once(' ') {
            if word == name {
                return value;
            }
        }
    }
    default
}

fn config_of(heading: &str) -> Result<HostConfig, Fail> {
    let history: u64 = setting(heading, "history", "20").parse()?;
    Ok(HostConfig {
        workers: setting(heading, "workers", "0").parse()?,
        sessions: setting(heading, "sessions", "1").parse()?,
        limits: Limits::new(setting(heading, "units", "100").parse()?, history).ok_or("limits")?,
        memory: setting(heading, "memory", "1000000").parse()?,
        entrance: EntranceConfig {
            first_lines: setting(heading, "first-lines", "1000").parse()?,
            first_line_timeout: setting(heading, "first-line", "600000").parse()?,
            challenge_key: [0; 32],
        },
        idle_timeout: setting(heading, "idle", "0").parse()?,
        reply_timeout: setting(heading, "reply", "600000").parse()?,
        commit_wait: COMMIT_WAIT,
        key_timeout: setting(heading, "key", "600000").parse()?,
        connections: setting(heading, "connections", "").parse()?,
        workbench: Identity {
            high: setting(heading, "high", "0").parse()?,
            low: setting(heading, "low", "0").parse()?,
        },
    })
}

fn close_of(ended: &Ended) -> Option<(u64, usize, usize)> {
    let Ok(served) = &ended.served else {
        return None;
    };
    let bench = &served.closed.bench;
    let calls = bench.before().saturating_add(bench.len() as u64);
    Some((calls, bench.len(), served.receipts.len()))
}

fn host_in_memory<R: Threads + Wait + Clock + Sync>(
    rt: &R,
    alloc: Global,
    listener: &TcpListener,
    config: HostConfig,
    secret: &[u8],
    errors: &Mutex<Vec<u8>>,
    ended: &AtomicBool,
) -> Result<Hosted, AllocError> {
    let mut out = MemorySink::new(alloc, 8192, u64::MAX);
    let end = host_on(rt, alloc, listener, config, secret, &mut out, errors);
    ended.store(true, Ordering::SeqCst);
    Ok((out.as_slice().to_vec(alloc)?, close_of(&end)))
}

// Whether the host ends.
fn ends<R: Clock>(rt: &R, ended: &AtomicBool) -> bool {
    for _ in 0..LOOKS {
        if ended.load(Ordering::SeqCst) {
            return true;
        }
        thread::sleep(rt, Duration::from_millis(PAUSE));
    }
    false
}

// Makes the steps. At the first that goes wrong the test ends, and does not wait for the host; nor does it where the host does not end.
fn act<R: Net<Listener = TcpListener, Stream = TcpStream> + Threads + Wait + Clock + Sync + Abort>(
    rt: &R,
    alloc: Global,
    port: u16,
    errors: &Mutex<Vec<u8>>,
    ended: &AtomicBool,
    conversation: &str,
    steps: &str,
) {
    match first_wrong(rt, alloc, port, errors, steps) {
        Ok(None) => assert!(rt; ends(rt, ended), "the host does not end: {conversation}"),
        Ok(Some(wrong)) => panic!(rt; "{wrong}: {conversation}"),
        Err(error) => panic!(rt; "{error:?}: {conversation}"),
    }
}

// Plays a conversation, and compares what comes of it with what its heading names.
fn play<R: Net<Listener = TcpListener, Stream = TcpStream> + Threads + Wait + Clock + Sync + Abort>(
    rt: &R,
    alloc: Global,
    conversation: &str,
) -> Result<(), Fail> {
    let (heading, steps) = conversation.split_once('\n').ok_or("a heading alone")?;
    let listener = TcpListener::bind(rt, "127.0.0.1:0")?;
    let port = listener.local_addr()?.port();
    listener.set_nonblocking(setting(heading, "failing", "no") == "yes")?;
    let config = config_of(heading)?;
    let secret = setting(heading, "secret", "").as_bytes();
    let errors = Mutex::new(Vec::new(alloc));
    let ended = AtomicBool::new(false);
    let (hosted, ()) = join(
        rt,
        || -> Result<Hosted, AllocError>
            requires { IsSync R.row }
        { host_in_memory(rt, alloc, &listener, config, secret, &errors, &ended) },
        || act(rt, alloc, port, &errors, &ended, conversation, steps),
    );
    let (printed, close) = hosted?;
    let printed = String::from_utf8(printed)?;
    let wanted = format!(in alloc; "listening on 127.0.0.1:{port}\nclosed\n")?;
    assert_eq!(rt; printed.as_str(), wanted.as_str());
    let errors = String::from_utf8(errors.into_inner())?;
    let wanted = lines_in(alloc, setting(heading, "errors", ""))?;
    let is_printed = wanted.as_str() == "any\n" || errors.as_str() == wanted.as_str();
    assert!(rt; is_printed, "{errors}: {heading}");
    let (calls, len, receipts) = close.ok_or("not closed")?;
    assert_eq!(rt; receipts, len, "{heading}");
    let found = format!(in alloc; "{calls}, {len}")?;
    let wanted = setting(heading, "calls", "");
    assert!(rt;
        wanted == "any" || found.as_str() == wanted,
        "{found}: {heading}"
    );
    Ok(())
}

/// Plays each conversation of a text with a host of its own.
pub(crate) fn compare<
    R: Net<Listener = TcpListener, Stream = TcpStream> + Threads + Wait + Clock + Sync + Abort,
>(rt: &R, alloc: Global, text: &str) -> Result<(), Fail> {
    let conversations = text.strip_prefix("\n== ").ok_or("a heading")?;
    for conversation in conversations.split("\n== ") {
        play(rt, alloc, conversation)?;
    }
    Ok(())
}
