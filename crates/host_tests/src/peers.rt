//! What a peer does, and what it gets then.
use fb_secret::{client_line, host_answer};
use std::alloc::{AllocError, Global};
use std::collections::VecDeque;
use std::io::{ErrorKind, Read, Write};
use std::net::{IpAddr, Ipv4Addr, Net, OpenStream, Shutdown, SocketAddr, TcpListener, TcpStream};
use std::sync::atomic::{AtomicBool, Ordering};
use std::time::{Clock, Duration, Instant};
use std::{io, thread};

/// How many milliseconds a peer waits for what it must get, and for a worker.
const BOUND: u64 = 20_000;

/// How many fields a structure has, of how many types, and how many of these structures are in a commit.
const FIELDS: usize = 300;

const TYPES: usize = 60;

const AT_ONCE: usize = 16;

/// How many milliseconds pass from one byte to the next where a peer sends one now and then, and how many bytes it sends.
const NOW_AND_THEN: u64 = 20;

const BYTES: u32 = 500;

/// How many connections a storm keeps.
const MOST_SILENT: usize = 300;

/// How many milliseconds a peer sends lines at most and reads no reply.
const FLOOD: u64 = 40_000;

/// How many lines it sends at once, and how many microseconds pass from one time to the next: it must still send when the host has given up.
const LINES_AT_ONCE: u32 = 64;

const BETWEEN_LINES: u64 = 200;

/// How many bytes a peer reads of a line or to the end.
const MOST_BYTES: u32 = 100_000;

/// How often a peer asks at most, until a worker has checked a unit or its stream ends.
const LOOKS: u32 = 200_000;

/// The question about the last of the units U0, U1 and so on, if there are 10 to 99: names are in order.
const ASK_LAST: &str = r#"{"op":"ask","kind":"faults","unit":"U9"}"#;

const TAKE: &str = r#"{"op":"take"}"#;

/// The challenge of each peer.
const CHALLENGE: &[u8] = b"fedcba9876543210fedcba9876543210fedcba9876543210fedcba9876543210";

/// A peer that has connected.
pub(crate) fn connect<R: Net<Listener = TcpListener, Stream = TcpStream>>(
    rt: &R,
    alloc: Global,
    port: u16,
) -> io::Result<TcpStream> {
    let address = format!(in alloc; "127.0.0.1:{port}")?;
    let stream = TcpStream::connect(rt, address.as_str())?;
    stream.set_read_timeout(Some(Duration::from_millis(BOUND)))?;
    Ok(stream)
}

/// Connects again and again, as fast as it can, and says nothing, until it is over. It gives how often it has connected.
pub(crate) fn storm<R: Net<Listener = TcpListener, Stream = TcpStream>>(
    rt: &R,
    alloc: Global,
    port: u16,
    is_over: &AtomicBool,
) -> io::Result<usize> {
    let address = SocketAddr::new(IpAddr::V4(Ipv4Addr::LOCALHOST), port);
    let mut silent = VecDeque::new(alloc);
    let mut count = 0usize;
    for _ in 0..LOOKS {
        if is_over.load(Ordering::SeqCst) {
            break;
        }
        let timeout = Duration::from_millis(NOW_AND_THEN);
        if let Ok(stream) = TcpStream::connect_timeout(rt, &address, timeout) {
            silent.push_back(stream)?;
            count = count.saturating_add(1);
        }
        if MOST_SILENT < silent.len() {
            drop(silent.pop_front());
        }
    }
    Ok(count)
}

/// Sends the text.
pub(crate) fn say(stream: &TcpStream, text: &str) -> io::Result<()> {
    let mut stream = stream;
    stream.write_all(text.as_bytes())
}

// Reads one line, or all that comes. If the other side closes before all is read, that is the end too.
fn read(alloc: Global, stream: &TcpStream, is_line: bool) -> io::Result<String> {
    let mut stream = stream;
    let mut told = String::new(alloc);
    let mut byte = [0u8; 1];
    for _ in 0..MOST_BYTES {
        match stream.read(&mut byte) {
            Ok(0) => break,
            Ok(_) => told.push(char::from(byte[0]))?,
            Err(error) => {
                if !is_line && error.kind() == ErrorKind::ConnectionReset {
                    break;
                }
                return Err(error);
            }
        }
        if is_line && byte[0] == b'\n' {
            break;
        }
    }
    Ok(told)
}

// Sends a line, and reads one.
fn ask(alloc: Global, stream: &TcpStream, line: &str) -> io::Result<String> {
    say(stream, format!(in alloc; "{line}\n")?.as_str())?;
    read(alloc, stream, true)
}

/// Gets a line.
pub(crate) fn get(alloc: Global, stream: &TcpStream) -> io::Result<String> {
    read(alloc, stream, true)
}

/// Gets the challenge of a host.
pub(crate) fn take_challenge(alloc: Global, stream: &TcpStream) -> io::Result<String> {
    let line = get(alloc, stream)?;
    let challenge = line
        .as_str()
        .strip_prefix("{\"challenge\":\"")
        .and_then(|it| it.strip_suffix("\"}\n"));
    let challenge = challenge.ok_or(ErrorKind::InvalidData)?;
    Ok(String::from_str(alloc, challenge)?)
}

/// Gets the challenge of a host, and proves this number of milliseconds later that it has the secret. It gives that both have proved it, or what it gets in the place
/// of the host's proof.
pub(crate) fn prove<R: Clock>(
    rt: &R,
    alloc: Global,
    stream: &TcpStream,
    secret: &str,
    later: usize,
) -> io::Result<String> {
    let challenge = take_challenge(alloc, stream)?;
    thread::sleep(rt, Duration::from_millis(later as u64));
    let (secret, challenge) = (secret.as_bytes(), challenge.as_bytes());
    let line = client_line(alloc, secret, challenge, CHALLENGE)?;
    let mut writer = stream;
    writer.write_all(&line)?;
    let answer = get(alloc, stream)?;
    let wanted = host_answer(alloc, secret, challenge, &line)?;
    if wanted.is_some_and(|wanted| wanted.as_slice() == answer.as_bytes()) {
        return Ok(String::from_str(alloc, "proved\n")?);
    }
    Ok(answer)
}

/// Sends a line, and counts how often the text is in the one that it gets.
pub(crate) fn count(
    alloc: Global,
    stream: &TcpStream,
    text: &str,
    line: &str,
) -> io::Result<String> {
    let told = ask(alloc, stream, line)?;
    let times = told.as_str().split(text).count().saturating_sub(1);
    Ok(format!(in alloc; "{times}\n")?)
}

/// Sends the line this number of times. It gives the last reply, or the first that is not the wanted one.
pub(crate) fn repeat(
    alloc: Global,
    stream: &TcpStream,
    times: usize,
    line: &str,
    wanted: &str,
) -> io::Result<String> {
    let mut told = String::new(alloc);
    for _ in 0..times {
        told = ask(alloc, stream, line)?;
        if told.as_str() != wanted {
            break;
        }
    }
    Ok(told)
}

/// Commits this number of units, U0, U1 and so on, one after another.
pub(crate) fn commit_units(alloc: Global, stream: &TcpStream, count: usize) -> io::Result<()> {
    for number in 0..count {
        let line = format!(in alloc;
            r#"{{"op":"commit","changes":[{{"put":"U{number}","base":0,"text":"FUNCTION_BLOCK U{number} END_FUNCTION_BLOCK"}}]}}"#
        )?;
        ask(alloc, stream, line.as_str())?;
    }
    Ok(())
}

/// Commits this number of units, from 10 to 99, and asks for the last of them, U9, until a worker has checked it. It gives the reply about it then.
pub(crate) fn commit_all<R: Clock>(
    rt: &R,
    alloc: Global,
    stream: &TcpStream,
    count: usize,
) -> io::Result<String> {
    let begun = Instant::now(rt)?;
    commit_units(alloc, stream, count)?;
    let mut known = String::new(alloc);
    for _ in 0..LOOKS {
        known = ask(alloc, stream, ASK_LAST)?;
        let is_late = Duration::from_millis(BOUND) < begun.elapsed(rt)?;
        if is_late || known.as_str() != "{\"answer\":\"pending\"}\n" {
            break;
        }
    }
    Ok(known)
}

// The fields of a structure, of types N0, N1 and so on: one more of these makes all that is known of the structure pending, and its check takes longer than a
// commit.
fn fields(alloc: Global) -> Result<String, AllocError> {
    let mut fields = String::new(alloc);
    for number in 0..FIELDS {
        let of = number % TYPES;
        fields.push_str(format!(in alloc; "F{number} : N{of}; ")?.as_str())?;
    }
    Ok(fields)
}

// A commit of sixteen structures with these fields, from this number on.
fn users(alloc: Global, fields: &str, first: usize) -> Result<String, AllocError> {
    let mut line = String::from_str(alloc, r#"{"op":"commit","changes":["#)?;
    for number in first..first.saturating_add(AT_ONCE) {
        let mark = if number == first { "" } else { "," };
        line.push_str(format!(in alloc;
            r#"{mark}{{"put":"M{number}","base":0,"text":"TYPE M{number} : STRUCT {fields}END_STRUCT END_TYPE"}}"#
        )?.as_str())?;
    }
    line.push_str("]}")?;
    Ok(line)
}

/// Commits structures M0, M1 and so on, this number times sixteen, with many fields of types that are not there.
pub(crate) fn commit_users(alloc: Global, stream: &TcpStream, times: usize) -> io::Result<String> {
    let fields = fields(alloc)?;
    for number in 0..times {
        let line = users(alloc, &fields, number.saturating_mul(AT_ONCE))?;
        ask(alloc, stream, line.as_str())?;
    }
    Ok(String::new(alloc))
}

/// Commits this number of these types, from a number on, and reads no reply.
pub(crate) fn add_types(
    alloc: Global,
    stream: &TcpStream,
    count: usize,
    first: usize,
) -> io::Result<String> {
    for number in first..first.saturating_add(count) {
        let line = format!(in alloc;
            "{{\"op\":\"commit\",\"changes\":[{{\"put\":\"N{number}\",\"base\":0,\"text\":\"TYPE N{number} : STRUCT F : INT; END_STRUCT END_TYPE\"}}]}}\n"
        )?;
        say(stream, line.as_str())?;
    }
    Ok(String::new(alloc))
}

/// Gets this number of lines.
pub(crate) fn get_lines(alloc: Global, stream: &TcpStream, count: usize) -> io::Result<String> {
    for _ in 0..count {
        get(alloc, stream)?;
    }
    Ok(String::new(alloc))
}

/// Sends this number of takes, and reads no reply.
pub(crate) fn grab(alloc: Global, stream: &TcpStream, times: usize) -> io::Result<String> {
    let mut lines = String::new(alloc);
    for _ in 0..times {
        lines.push_str(TAKE)?;
        lines.push('\n')?;
    }
    say(stream, lines.as_str())?;
    Ok(String::new(alloc))
}

/// Gives the faults of a unit back and takes again, this number of times, and reads the replies then.
pub(crate) fn regrab(
    alloc: Global,
    stream: &TcpStream,
    unit: &str,
    times: usize,
) -> io::Result<String> {
    let mut lines = String::new(alloc);
    for _ in 0..times {
        lines.push_str(format!(in alloc;
            "{{\"op\":\"give_back\",\"kind\":\"faults\",\"unit\":\"{unit}\"}}\n{TAKE}\n"
        )?.as_str())?;
    }
    say(stream, lines.as_str())?;
    get_lines(alloc, stream, times.saturating_mul(2))
}

/// Commits a unit A with this number of faults, and asks for work. It gives the reply to that.
pub(crate) fn commit_faults(alloc: Global, stream: &TcpStream, count: usize) -> io::Result<String> {
    let mut line = String::from_str(
        alloc,
        r#"{"op":"commit","changes":[{"put":"A","base":0,"text":"FUNCTION_BLOCK A EVENT_INPUT E WITH X"#,
    )?;
    for _ in 1..count {
        line.push_str(",X")?;
    }
    line.push_str(r#"; END_EVENT END_FUNCTION_BLOCK"}]}"#)?;
    ask(alloc, stream, line.as_str())?;
    ask(alloc, stream, r#"{"op":"work","turns":9}"#)
}

/// Sends a blank now and then, until its stream ends. It gives what it got, or that the stream is still open.
pub(crate) fn drip(alloc: Global, stream: &TcpStream) -> io::Result<String> {
    stream.set_read_timeout(Some(Duration::from_millis(NOW_AND_THEN)))?;
    for _ in 0..BYTES {
        if say(stream, " ").is_err() || !is_open(stream) {
            return rest(alloc, stream);
        }
    }
    Ok(String::from_str(alloc, "open")?)
}

// Whether nothing comes, and no end, for some time.
fn is_open(stream: &TcpStream) -> bool {
    let mut byte = [0u8; 1];
    match stream.peek(&mut byte) {
        Ok(_) => false,
        Err(error) => error.kind() == ErrorKind::WouldBlock,
    }
}

// The line, again and again.
fn repeated(alloc: Global, line: &str) -> io::Result<String> {
    let mut lines = String::new(alloc);
    for _ in 0..LINES_AT_ONCE {
        lines.push_str(line)?;
        lines.push('\n')?;
    }
    Ok(lines)
}

// Reads a byte, if one has come.
fn sip(stream: &TcpStream) {
    let mut stream = stream;
    let mut byte = [0u8; 1];
    let _ = stream.read(&mut byte);
}

/// Sends the line again and again until its stream ends, and reads no reply, or a byte of them now and then. It gives nothing, or that the stream is still
/// open.
pub(crate) fn flood<R: Clock>(
    rt: &R,
    alloc: Global,
    stream: &TcpStream,
    line: &str,
    sips: bool,
) -> io::Result<String> {
    let begun = Instant::now(rt)?;
    let lines = repeated(alloc, line)?;
    stream.set_write_timeout(Some(Duration::from_millis(NOW_AND_THEN)))?;
    let mut is_open = true;
    for _ in 0..LOOKS {
        is_open = takes(stream, lines.as_str());
        if !is_open || Duration::from_millis(FLOOD) < begun.elapsed(rt)? {
            break;
        }
        if sips {
            sip(stream);
        }
        thread::sleep(rt, Duration::from_micros(BETWEEN_LINES));
    }
    Ok(String::from_str(alloc, if is_open { "open" } else { "" })?)
}

// Whether a stream takes the text, or is only full.
fn takes(stream: &TcpStream, text: &str) -> bool {
    match say(stream, text) {
        Ok(()) => true,
        Err(error) => error.kind() == ErrorKind::WouldBlock,
    }
}

/// Ends its sending, and reads all that it gets.
pub(crate) fn leave(alloc: Global, stream: &TcpStream) -> io::Result<String> {
    let _ = stream.shutdown(Shutdown::Write);
    rest(alloc, stream)
}

/// Sends a line, and reads all that it gets.
pub(crate) fn end(alloc: Global, stream: &TcpStream, line: &str) -> io::Result<String> {
    let _ = say(stream, format!(in alloc; "{line}\n")?.as_str());
    rest(alloc, stream)
}

/// Takes a key, as soon as there is one. It gives the reply.
pub(crate) fn take<R: Clock>(rt: &R, alloc: Global, stream: &TcpStream) -> io::Result<String> {
    let begun = Instant::now(rt)?;
    let mut taken = String::new(alloc);
    for _ in 0..LOOKS {
        taken = ask(alloc, stream, TAKE)?;
        let is_late = Duration::from_millis(BOUND) < begun.elapsed(rt)?;
        if is_late || taken.as_str() != "{\"job\":0}\n" {
            break;
        }
        thread::sleep(rt, Duration::from_millis(NOW_AND_THEN));
    }
    Ok(taken)
}

/// Reads all that it gets.
pub(crate) fn rest(alloc: Global, stream: &TcpStream) -> io::Result<String> {
    read(alloc, stream, false)
}
