//! Servers in this process, and peers that connect to them over loopback.
//!
//! A play has a heading, `== TITLE / WORKERS / SESSIONS / UNITS / CALLS`, and steps `@PEER ACT` with lines `REQUEST => REPLY`. A line may
//! lack its request or its reply, and the request `commit` is a commit of the unit A. Peer N has session N, and peer 0 reads what the server
//! prints on its errors. The acts of a peer:
//!
//! - `ask` sends a line and reads one, `flood` does so 100,001 times, and `await` until the reply is no longer pending;
//! - `rounds` commits 50 times, and awaits the reply each time;
//! - `talk` sends its lines, ends its sending, and reads to the end, and `overlong` does so with a line that is too long;
//! - `half` sends a line without its end and disconnects;
//! - `reset` sends a line, reads one byte, and disconnects; as the rest is unread, the system resets the connection.
ghost use Rattle.std.specs.Thread.{IsSync};

use fb_program::bench::Limits;
use fb_program::wire::MemorySink;
use fb_serve::{ServerConfig, serve_on};
use std::alloc::Global;
use std::io;
use std::io::{BufRead, BufReader, ErrorKind, Read, Write};
use std::net::{Net, Shutdown, TcpListener, TcpStream};
use std::process::Abort;
use std::sync::Wait;
use std::test::Fail;
use std::thread::{Threads, join};
use std::time::{Clock, Duration};

/// A number that nothing reaches.
pub(crate) const ALWAYS: u64 = u64::MAX;

const COMMIT: &str =
    r#"{"op":"commit","changes":[{"put":"A","base":0,"text":"FUNCTION_BLOCK A END_FUNCTION_BLOCK"}]} =>"#;

const PENDING: &str = "{\"answer\":\"pending\"}\n";

/// How often a peer asks for a reply that is pending.
const LOOKS: u32 = 200_000;

fn add_line(text: &mut String, line: &str) -> io::Result<()> {
    if !line.is_empty() {
        writeln!(text, "{line}")?;
    }
    Ok(())
}

/// The requests of these lines, and the replies to them.
pub(crate) fn exchanges_in(alloc: Global, lines: &str) -> io::Result<(String, String)> {
    let (mut requests, mut replies) = (String::new(alloc), String::new(alloc));
    for line in lines.replace(alloc, "commit =>", COMMIT)?.lines() {
        let (request, reply) = line.split_once("=>").ok_or(ErrorKind::InvalidInput)?;
        add_line(&mut requests, request.trim_end())?;
        add_line(&mut replies, reply.trim_start())?;
    }
    Ok((requests, replies))
}

// Sends a text, and reads a line of at most this number of bytes.
fn exchange(alloc: Global, stream: &TcpStream, text: &str, limit: u64) -> io::Result<String> {
    let mut stream = stream;
    stream.write_all(text.as_bytes())?;
    let mut reply = String::new(alloc);
    BufReader::with_capacity(alloc, 64, stream.take(limit))?.read_line(&mut reply)?;
    Ok(reply)
}

// Sends a line up to this number of times, as long as this is the reply. It gives the last reply.
fn repeat(
    alloc: Global,
    stream: &TcpStream,
    times: u32,
    line: &str,
    same: &str,
) -> io::Result<String> {
    let mut reply = String::new(alloc);
    for _ in 0..times {
        reply = exchange(alloc, stream, line, 1000)?;
        if reply.as_str() != same {
            break;
        }
    }
    Ok(reply)
}

// Commits 50 times, and awaits the reply to a question each time, up to the first that is not wanted. It gives the last reply.
fn rounds(alloc: Global, stream: &TcpStream, question: &str, wanted: &str) -> io::Result<String> {
    let mut reply = String::new(alloc);
    for base in 1..51u64 {
        let commit = format!(in alloc;
            "{{\"op\":\"commit\",\"changes\":[{{\"put\":\"A\",\"base\":{base},\"text\":\"FUNCTION_BLOCK A END_FUNCTION_BLOCK\"}}]}}\n"
        )?;
        exchange(alloc, stream, &commit, 1000)?;
        reply = repeat(alloc, stream, LOOKS, question, PENDING)?;
        if reply.as_str() != wanted {
            break;
        }
    }
    Ok(reply)
}

// Sends a text, ends its sending, and reads to the end.
fn talk(alloc: Global, stream: &TcpStream, text: &[u8]) -> io::Result<String> {
    let mut stream = stream;
    stream.write_all(text)?;
    stream.shutdown(Shutdown::Write)?;
    io::read_to_string(alloc, stream)
}

// What a peer gets by this act.
fn reply_to(
    alloc: Global,
    stream: &TcpStream,
    act: &str,
    requests: &str,
    wanted: &str,
) -> io::Result<String> {
    match act {
        "ask" => exchange(alloc, stream, requests, 1000),
        "flood" => repeat(alloc, stream, 100_001, requests, wanted),
        "await" => repeat(alloc, stream, LOOKS, requests, PENDING),
        "rounds" => rounds(alloc, stream, requests, wanted),
        "talk" => talk(alloc, stream, requests.as_bytes()),
        "overlong" => talk(alloc, stream, &vec![in alloc; b' '; 1_048_577]?),
        "half" => exchange(alloc, stream, requests.trim_end(), 0),
        "reset" => Ok(format!(in alloc; "{}\n", exchange(alloc, stream, requests, 1)?)?),
        _ => Err(io::Error::from(ErrorKind::InvalidInput)),
    }
}

// Makes a step. It gives what the peer gets, and the replies that are wanted.
fn make_step(
    alloc: Global,
    streams: &mut Vec<Option<TcpStream>>,
    step: &str,
) -> io::Result<(String, String)> {
    let step = step.trim_end();
    let (peer, step) = step.split_once(' ').ok_or(ErrorKind::InvalidInput)?;
    let (act, lines) = step.split_once(' ').unwrap_or((step, ""));
    let (requests, wanted) = exchanges_in(alloc, lines)?;
    let peer = peer.parse::<usize>().ok().ok_or(ErrorKind::InvalidInput)?;
    let Some(Some(stream)) = streams.get(peer) else {
        return Err(io::Error::from(ErrorKind::NotFound));
    };
    let reply = reply_to(alloc, stream, act, &requests, &wanted)?;
    if (act == "half" || act == "reset") && peer < streams.len() {
        streams[peer] = None;
    }
    Ok((reply, wanted))
}

// Makes the steps, and then peer 0 reads one of the ends. The test fails at the first step at which a peer gets another text.
fn make_steps(
    rt: &impl Abort,
    alloc: Global,
    mut streams: Vec<Option<TcpStream>>,
    (heading, steps): (&str, &str),
    ends: &[&str],
) {
    for step in steps.split("\n@") {
        let (reply, wanted) = make_step(alloc, &mut streams, step).expect(rt, step);
        assert_eq!(rt; reply.as_str(), wanted.as_str(), "{heading}: {step}");
    }
    let (end, _) = make_step(alloc, &mut streams, "0 talk").expect(rt, "an end");
    let is_wanted = ends.iter().any(|it| *it == end.as_str());
    assert!(rt; is_wanted, "{heading}: {end}");
}

// Serves, and then prints on the errors what it printed after its greeting, and its status.
fn serve_and_report<R: Threads + Wait + Clock + Sync>(
    rt: &R,
    alloc: Global,
    listener: &TcpListener,
    config: ServerConfig,
    good_writes: u64,
    errors: TcpStream,
) -> io::Result<()> {
    let mut out = MemorySink::new(alloc, 8192, good_writes);
    let mut errors = &errors;
    let ended = serve_on(rt, alloc, listener, config, &mut out, &mut errors);
    let greeting = format!(in alloc; "listening on {}\n", listener.local_addr()?)?;
    let printed = out.as_slice().strip_prefix(greeting.as_bytes());
    errors.write_all(printed.unwrap_or("no greeting\n".as_bytes()))?;
    writeln!(errors, "status {}", ended.status)
}

/// The server of a heading.
pub(crate) fn config_of(heading: &str) -> Result<ServerConfig, Fail> {
    let (_, numbers) = heading.split_once(" / ").ok_or("numbers")?;
    let mut numbers = numbers.split(" / ");
    Ok(ServerConfig {
        workers: numbers.next().ok_or("workers")?.parse()?,
        sessions: numbers.next().ok_or("sessions")?.parse()?,
        limits: Limits::new(
            numbers.next().ok_or("units")?.parse()?,
            numbers.next().ok_or("calls")?.parse()?,
        )
        .ok_or("limits")?,
    })
}

// All peers connect before the server lets the first of them in.
fn run_play<
    R: Net<Listener = TcpListener, Stream = TcpStream> + Threads + Wait + Clock + Sync + Abort,
>(rt: &R, alloc: Global, play: &str, good_writes: u64, ends: &[&str]) -> Result<(), Fail> {
    let (heading, steps) = play.split_once("\n@").ok_or("a step")?;
    let config = config_of(heading)?;
    let listener = TcpListener::bind(rt, "127.0.0.1:0")?;
    let mut streams = Vec::new(alloc);
    for _ in 0..=config.sessions {
        let stream = TcpStream::connect(rt, listener.local_addr()?)?;
        stream.set_read_timeout(Some(Duration::from_secs(20)))?;
        streams.push(Some(stream))?;
    }
    let (errors, _) = listener.accept()?;
    let (served, ()) = join(
        rt,
        || -> io::Result<()>
            requires { IsSync R.row }
        { serve_and_report(rt, alloc, &listener, config, good_writes, errors) },
        || make_steps(rt, alloc, streams, (heading, steps), ends),
    );
    Ok(served?)
}

/// Runs each of these plays at a server of which this number of writes are good, and which prints one of the ends.
pub(crate) fn compare<
    R: Net<Listener = TcpListener, Stream = TcpStream> + Threads + Wait + Clock + Sync + Abort,
>(rt: &R, alloc: Global, plays: &str, good_writes: u64, ends: &[&str]) -> Result<(), Fail> {
    let plays = plays.strip_prefix("\n== ").ok_or("a heading")?;
    for play in plays.split("\n== ") {
        run_play(rt, alloc, play, good_writes, ends)?;
    }
    Ok(())
}
