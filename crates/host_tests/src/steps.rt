//! Steps of peers, each in a line of its own, and remarks after `// `. Peers have numbers from 0 as they come.
//!
//! | Step | What it is |
//! |---|---|
//! | `connect 6` | this number of peers connect; the next one also connects by its first step |
//! | `0 is challenged` | it gets a challenge |
//! | `0 proves SECRET => proved` | it gets a challenge, proves that it has this secret, and gets the proof of the host; or what it gets in the place of that |
//! | `0 proves SECRET after 100 => proved` | the same, but it proves this number of milliseconds after the challenge |
//! | `in a storm 0 STEP => REPLY` | another peer connects as fast as it can and says nothing, while this one makes this step |
//! | `0 says TEXT` | the peer sends this, where `\n` and `\r` are ends of lines |
//! | `0 asks LINE => REPLY` | it sends a line, and gets one |
//! | `0 repeats 30 LINE => REPLY` | the same, this number of times |
//! | `0 gets => REPLY` | it gets a line |
//! | `0 counts TEXT in LINE => 3` | it sends a line, and gets one with this text this number of times |
//! | `0 puts 80` | it commits this number of units, one after another |
//! | `0 commits 80 => REPLY` | it commits this number of units, from 10 to 99, and gets this of the last one once workers have checked all of them |
//! | `0 uses 4` | it commits structures, this number times sixteen, with many fields of types that are not there |
//! | `0 adds 9 from 20` | it commits this number of these types, from this one on, and reads no reply |
//! | `0 reads 9` | it gets this number of lines |
//! | `0 grabs 60` | it sends this number of takes, and reads no reply |
//! | `0 regrabs ZZ 20` | it sends this number of times that it gives the faults of this unit back and takes again, and reads the replies then |
//! | `0 errs 9000 => REPLY` | it commits a unit A with this number of faults and asks for work, and gets this |
//! | `0 drips` | it sends a byte now and then, until it is closed |
//! | `0 floods LINE` | it sends a line again and again and reads no reply, until it is closed |
//! | `0 sips LINE` | the same, but it reads a byte of the replies now and then |
//! | `0 takes => REPLY` | it takes a key, as soon as there is one |
//! | `0 ends LINE => REPLY` | it sends a line, and gets this to the end, or nothing |
//! | `0 leaves => REPLY` | it ends its sending, and gets this to the end, or nothing |
//! | `each 0 to 63 STEP => REPLY` | each of these peers makes this step |
//! | `leave 1 to 31 => REPLY` | each of these peers ends its sending, and gets this to the end, or nothing |
//! | `0 is closed => REPLY` | it gets this to the end, or nothing |
//! | `errors => TEXT` | this is what the host has printed on its errors, soon |
//! | `errors are held` | nobody reads what the host prints on its errors |
//! | `errors are free` | it is read again |
//! | `passed 90` | at least this number of milliseconds have passed since the first step |
//! | `within 9000` | at most this number |
//! | `wait 400` | this number of milliseconds pass |
ghost use Rattle.std.specs.Thread.{IsSync};

use crate::peers::{
    add_types, commit_all, commit_faults, commit_units, commit_users, connect, count, drip, end,
    flood, get, get_lines, grab, leave, prove, regrab, repeat, rest, say, storm, take,
    take_challenge,
};
use std::alloc::{AllocError, Global};
use std::io::ErrorKind;
use std::net::{Net, TcpListener, TcpStream};
use std::sync::atomic::{AtomicBool, Ordering};
use std::sync::{Mutex, MutexGuard, Wait};
use std::thread::{Threads, join};
use std::time::{Clock, Duration, Instant};
use std::{io, thread};

/// How often a storm connects at least.
const LEAST_STORM: usize = 64;

/// How often it is looked whether the host has printed something, and how many milliseconds pass from one look to the next.
const LOOKS: u32 = 10_000;

const PAUSE: u64 = 2;

/// Where a host listens, what it prints on its errors, a hold of that if nobody reads it, and when the first step was made.
#[derive(Drop)]
struct Scene<'a> {
    port: u16,
    errors: &'a Mutex<Vec<u8>>,
    held: Option<MutexGuard<'a, Vec<u8>>>,
    begun: Instant,
}

fn number_in(word: &str) -> io::Result<usize> {
    Ok(word.parse::<usize>().ok().ok_or(ErrorKind::InvalidInput)?)
}

// What is written, with the ends of its lines.
fn text_in(alloc: Global, written: &str) -> Result<String, AllocError> {
    let text = written.replace(alloc, "\\r", "\r")?;
    text.as_str().replace(alloc, "\\n", "\n")
}

/// The same with the end of the last line, if there is one.
pub(crate) fn lines_in(alloc: Global, written: &str) -> Result<String, AllocError> {
    let mut lines = text_in(alloc, written)?;
    if !lines.is_empty() {
        lines.push('\n')?;
    }
    Ok(lines)
}

// More peers, of this number.
fn connect_all<R: Net<Listener = TcpListener, Stream = TcpStream>>(
    rt: &R,
    alloc: Global,
    port: u16,
    streams: &mut Vec<TcpStream>,
    count: usize,
) -> io::Result<String> {
    for _ in 0..count {
        streams.push(connect(rt, alloc, port)?)?;
    }
    Ok(String::new(alloc))
}

fn peer(streams: &[TcpStream], number: usize) -> io::Result<&TcpStream> {
    Ok(streams.get(number).ok_or(ErrorKind::NotFound)?)
}

// Peers leave one after another. It gives what the last of them gets, or the first that gets something else than this.
fn leave_all(
    alloc: Global,
    streams: &[TcpStream],
    range: &str,
    wanted: &str,
) -> io::Result<String> {
    let (first, last) = range.split_once(" to ").ok_or(ErrorKind::InvalidInput)?;
    let mut told = String::new(alloc);
    for number in number_in(first)?..=number_in(last)? {
        told = leave(alloc, peer(streams, number)?)?;
        if told.as_str() != wanted {
            break;
        }
    }
    Ok(told)
}

// Each of these peers connects if it is the next one, and makes this step. It gives what the last of them gets, or the first that gets something else than this.
fn each<R: Net<Listener = TcpListener, Stream = TcpStream> + Clock>(
    rt: &R,
    alloc: Global,
    port: u16,
    streams: &mut Vec<TcpStream>,
    words: &str,
    wanted: &str,
) -> io::Result<String> {
    let (first, words) = words.split_once(" to ").ok_or(ErrorKind::InvalidInput)?;
    let (last, step) = words.split_once(' ').ok_or(ErrorKind::InvalidInput)?;
    let mut told = String::new(alloc);
    for number in number_in(first)?..=number_in(last)? {
        let missing = usize::from(number == streams.len());
        connect_all(rt, alloc, port, streams, missing)?;
        told = got(rt, alloc, peer(streams, number)?, step, wanted)?;
        if told.as_str() != wanted {
            break;
        }
    }
    Ok(told)
}

fn printed<R: Wait>(rt: &R, alloc: Global, errors: &Mutex<Vec<u8>>) -> io::Result<String> {
    let bytes = errors.lock(rt).as_slice().to_vec(alloc)?;
    Ok(String::from_utf8(bytes).ok().ok_or(ErrorKind::InvalidData)?)
}

// What is printed as soon as that is this, or what is printed at last.
fn printed_soon<R: Wait + Clock>(
    rt: &R,
    alloc: Global,
    errors: &Mutex<Vec<u8>>,
    wanted: &str,
) -> io::Result<String> {
    let mut told = String::new(alloc);
    for _ in 0..LOOKS {
        told = printed(rt, alloc, errors)?;
        if told.as_str() == wanted {
            break;
        }
        thread::sleep(rt, Duration::from_millis(PAUSE));
    }
    Ok(told)
}

fn passed<R: Clock>(rt: &R, alloc: Global, begun: Instant, least: usize) -> io::Result<String> {
    let is_soon = begun.elapsed(rt)? < Duration::from_millis(least as u64);
    Ok(String::from_str(alloc, if is_soon { "too soon" } else { "" })?)
}

fn within<R: Clock>(rt: &R, alloc: Global, begun: Instant, most: usize) -> io::Result<String> {
    let is_late = Duration::from_millis(most as u64) < begun.elapsed(rt)?;
    Ok(String::from_str(alloc, if is_late { "too late" } else { "" })?)
}

fn wait<R: Clock>(rt: &R, alloc: Global, length: usize) -> String {
    thread::sleep(rt, Duration::from_millis(length as u64));
    String::new(alloc)
}

// Makes the step of a peer. It gives what the peer gets, which should be this.
fn got<R: Clock>(
    rt: &R,
    alloc: Global,
    stream: &TcpStream,
    step: &str,
    wanted: &str,
) -> io::Result<String> {
    match step.split_once(' ').unwrap_or((step, "")) {
        ("says", text) => {
            say(stream, text)?;
            Ok(String::new(alloc))
        }
        ("asks", line) => repeat(alloc, stream, 1, line, wanted),
        ("repeats", words) => {
            let (times, line) = words.split_once(' ').ok_or(ErrorKind::InvalidInput)?;
            repeat(alloc, stream, number_in(times)?, line, wanted)
        }
        ("gets", "") => get(alloc, stream),
        ("counts", words) => {
            let (text, line) = words.split_once(" in ").ok_or(ErrorKind::InvalidInput)?;
            count(alloc, stream, text, line)
        }
        ("puts", count) => {
            commit_units(alloc, stream, number_in(count)?)?;
            Ok(String::new(alloc))
        }
        ("commits", count) => commit_all(rt, alloc, stream, number_in(count)?),
        ("uses", times) => commit_users(alloc, stream, number_in(times)?),
        ("adds", words) => {
            let (count, first) = words.split_once(" from ").ok_or(ErrorKind::InvalidInput)?;
            add_types(alloc, stream, number_in(count)?, number_in(first)?)
        }
        ("reads", count) => get_lines(alloc, stream, number_in(count)?),
        ("grabs", times) => grab(alloc, stream, number_in(times)?),
        ("regrabs", words) => {
            let (unit, times) = words.split_once(' ').ok_or(ErrorKind::InvalidInput)?;
            regrab(alloc, stream, unit, number_in(times)?)
        }
        ("errs", count) => commit_faults(alloc, stream, number_in(count)?),
        ("drips", "") => drip(alloc, stream),
        ("takes", "") => take(rt, alloc, stream),
        ("ends", line) => end(alloc, stream, line),
        ("floods", line) => flood(rt, alloc, stream, line, false),
        ("sips", line) => flood(rt, alloc, stream, line, true),
        ("leaves", "") => leave(alloc, stream),
        ("is", "challenged") => {
            take_challenge(alloc, stream)?;
            Ok(String::new(alloc))
        }
        ("proves", words) => {
            let (secret, later) = words.split_once(" after ").unwrap_or((words, "0"));
            prove(rt, alloc, stream, secret, number_in(later)?)
        }
        ("is", "closed") => rest(alloc, stream),
        _ => Err(io::Error::from(ErrorKind::InvalidInput)),
    }
}

// Makes the step of a peer in a storm, in which another one connects a number of times at least.
fn got_in_storm<R: Net<Listener = TcpListener, Stream = TcpStream> + Threads + Wait + Clock + Sync>(
    rt: &R,
    alloc: Global,
    port: u16,
    stream: &TcpStream,
    step: &str,
    wanted: &str,
) -> io::Result<String> {
    let is_over = AtomicBool::new(false);
    let (told, count) = join(
        rt,
        || -> io::Result<String>
            requires { IsSync R.row }
        {
            let told = got(rt, alloc, stream, step, wanted);
            is_over.store(true, Ordering::SeqCst);
            told
        },
        || storm(rt, alloc, port, &is_over),
    );
    if count? < LEAST_STORM {
        return Ok(String::from_str(alloc, "no storm")?);
    }
    told
}

// Makes the step in a line, if there is one. It gives what comes, which should be this.
fn told<R: Net<Listener = TcpListener, Stream = TcpStream> + Threads + Wait + Clock + Sync>(
    rt: &R,
    alloc: Global,
    scene: &mut Scene<'_>,
    streams: &mut Vec<TcpStream>,
    step: &str,
    wanted: &str,
) -> io::Result<String> {
    match step.split_once(' ').unwrap_or((step, "")) {
        ("", _) | ("//", _) => Ok(String::new(alloc)),
        ("connect", count) => connect_all(rt, alloc, scene.port, streams, number_in(count)?),
        ("each", words) => each(rt, alloc, scene.port, streams, words, wanted),
        ("leave", range) => leave_all(alloc, streams, range, wanted),
        ("errors", "") => printed_soon(rt, alloc, scene.errors, wanted),
        ("errors", "are held") => {
            scene.held = Some(scene.errors.lock(rt));
            Ok(String::new(alloc))
        }
        ("errors", "are free") => {
            scene.held = None;
            Ok(String::new(alloc))
        }
        ("passed", least) => passed(rt, alloc, scene.begun, number_in(least)?),
        ("within", most) => within(rt, alloc, scene.begun, number_in(most)?),
        ("wait", length) => Ok(wait(rt, alloc, number_in(length)?)),
        ("in", words) => {
            let words = words
                .strip_prefix("a storm ")
                .ok_or(ErrorKind::InvalidInput)?;
            let (number, step) = words.split_once(' ').ok_or(ErrorKind::InvalidInput)?;
            let number = number_in(number)?;
            let missing = usize::from(number == streams.len());
            connect_all(rt, alloc, scene.port, streams, missing)?;
            let stream = peer(streams, number)?;
            got_in_storm(rt, alloc, scene.port, stream, step, wanted)
        }
        (number, step) => {
            let number = number_in(number)?;
            let missing = usize::from(number == streams.len());
            connect_all(rt, alloc, scene.port, streams, missing)?;
            got(rt, alloc, peer(streams, number)?, step, wanted)
        }
    }
}

/// Makes the steps, up to the first at which something else comes. It gives the line of that, and what comes.
pub(crate) fn first_wrong<
    R: Net<Listener = TcpListener, Stream = TcpStream> + Threads + Wait + Clock + Sync,
>(
    rt: &R,
    alloc: Global,
    port: u16,
    errors: &Mutex<Vec<u8>>,
    steps: &str,
) -> io::Result<Option<String>> {
    let mut scene = Scene {
        port,
        errors,
        held: None,
        begun: Instant::now(rt)?,
    };
    let mut streams = Vec::new(alloc);
    for line in steps.split('\n') {
        let (step, wanted) = line.split_once(" => ").unwrap_or((line, ""));
        let (step, wanted) = (text_in(alloc, step)?, lines_in(alloc, wanted)?);
        match told(rt, alloc, &mut scene, &mut streams, &step, &wanted) {
            Ok(told) => {
                if told.as_str() != wanted.as_str() {
                    return Ok(Some(format!(in alloc; "{line}: {told}")?));
                }
            }
            Err(error) => return Ok(Some(format!(in alloc; "{line}: {error:?}")?)),
        }
    }
    Ok(None)
}
