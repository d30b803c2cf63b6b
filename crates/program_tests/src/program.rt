//! What the program's words ask for, and how its runs end.
use crate::play::ALWAYS;
use fb_program::wire::{MemoryFeed, MemorySink};
use fb_program::{Outcome, Settings, refuse_words, run, settings};
use std::alloc::{AllocError, Global};
use std::io::ErrorKind;
use std::iter::once;
use std::process::Abort;
use std::test::Fail;

const TAKE: &[u8] = b"{\"op\":\"take\"}\n";

const NO_JOB: &str = "{\"job\":0}\n";

/// How many reads and writes of a run are good, and how many reads it may make.
type Room = (u64, u64, u64);

const AMPLE: Room = (ALWAYS, ALWAYS, 1000);

/// The words of a line, after that of the program.
pub(crate) fn words_of<'a>(alloc: Global, line: &'a str) -> Result<Vec<&'a str>, AllocError> {
    once("bench61499")
        .chain(line.split_whitespace())
        .collect(alloc)
}

/// The status of a run of the words of a line, or none if it asks for a server, what it writes, and what it prints on its errors.
fn ended(
    alloc: Global,
    line: &str,
    input: &[u8],
    (reads, writes, turns): Room,
) -> Result<(Option<u8>, String, String), Fail> {
    let words = words_of(alloc, line)?;
    let mut reader = MemoryFeed::new(input, 8192, reads);
    let mut writer = MemorySink::new(alloc, 8192, writes);
    let mut errors = Vec::new(alloc);
    let status = match run(alloc, &words, &mut reader, &mut writer, &mut errors, turns) {
        Outcome::Ended(status) => Some(status),
        Outcome::Serves(_) | Outcome::Hosts(_) => None,
    };
    let output = String::from_utf8(writer.as_slice().to_vec(alloc)?)?;
    Ok((status, output, String::from_utf8(errors)?))
}

/// The settings, as a line.
pub(crate) fn line_of(alloc: Global, settings: &Settings<'_>) -> Result<String, AllocError> {
    match settings {
        Settings::Script { units, history } => format!(in alloc; "script {units} {history}"),
        Settings::Serve {
            port,
            workers,
            sessions,
            units,
            history,
        } => format!(in alloc; "serve {port} {workers} {sessions} {units} {history}"),
        Settings::Host(it) => {
            let (port, workers, sessions) = (it.port, it.workers, it.sessions);
            let (units, history, memory) = (it.limits.units(), it.limits.history(), it.memory);
            let (secret, is_open) = (it.secret, it.is_open);
            let (idle, connections) = (it.idle, it.connections);
            format!(in alloc;
                "host {port} {workers} {sessions} {units} {history} {memory} {secret:?} {is_open} {idle} {connections}"
            )
        }
    }
}

/// What the words of a line ask for, as a line, or nothing.
pub(crate) fn asked_by(alloc: Global, line: &str) -> Result<Option<String>, AllocError> {
    let words = words_of(alloc, line)?;
    match settings(alloc, words.as_slice()) {
        Ok(settings) => Ok(Some(line_of(alloc, &settings)?)),
        Err(_) => Ok(None),
    }
}

// Compares what the words of each row ask for, and how their run over one request ends.
fn compare(
    rt: &impl Abort,
    alloc: Global,
    rows: &str,
    end: (Option<u8>, &str, &str),
) -> Result<(), Fail> {
    for row in rows.split('\n') {
        let (line, wanted) = row.split_once(" => ").ok_or("a row without =>")?;
        let asked = asked_by(alloc, line)?;
        assert_eq!(rt; asked.as_deref(), Some(wanted), "{line}");
        let (status, output, errors) = ended(alloc, line, TAKE, AMPLE)?;
        let found = (status, output.as_str(), errors.as_str());
        assert_eq!(rt; found, end, "{line}");
    }
    Ok(())
}

const SCRIPTS: &str = "script => script 1024 100000
script --history 3 => script 1024 3
script --history 5 => script 1024 5
script --history 129 => script 1024 129
script --units 1 => script 1 100000
script --units=16384 => script 16384 100000
script --history=10000000 => script 1024 10000000";

#[test]
fn words_give_settings(rt: HostRuntime) -> Result<(), Fail> {
    compare(&rt, rt.alloc(), SCRIPTS, (Some(0), NO_JOB, ""))
}

// Words that ask for a server: its port, workers and sessions, and the limits.
const SERVED: &str = "serve --port 0 => serve 0 2 1 1024 100000
serve --port=65535 => serve 65535 2 1 1024 100000
serve --port 7 --workers 16 --sessions 64 --units 3 --history 9 => serve 7 16 64 3 9
serve --history 1 --sessions 1 --workers 1 --port 1 => serve 1 1 1 1024 1";

// A run gives words that ask for a server back, and does nothing.
#[test]
fn words_give_servers(rt: HostRuntime) -> Result<(), Fail> {
    compare(&rt, rt.alloc(), SERVED, (None, "", ""))
}

// Words that ask for a server that stays: the same, the bytes of texts, the secret, the minutes, and the connections.
const HOSTED: &str =
    r#"host --port 7 => host 7 2 32 16384 100000 2147483648 None false 60 1000000000
host --port 0 --sessions 1 --workers 1 --units 1 --history 1 --memory 1 --secret s --idle 0 --connections 1 => host 0 1 1 1 1 1 Some("s") false 0 1
host --connections=1000000000 --idle=10080 --secret=a/b --memory=1099511627776 --history=10000000 --units=16384 --workers=16 --sessions=255 --port=65535 => host 65535 16 255 16384 10000000 1099511627776 Some("a/b") false 10080 1000000000
host --port 6149 --sessions 3 --workers 5 --units 17 --history 19 --memory 31 --idle 23 --connections 29 => host 6149 5 3 17 19 31 None false 23 29
host --port 6149 --open --sessions 3 => host 6149 2 3 16384 100000 2147483648 None true 60 1000000000
host --open --port 6149 --secret s => host 6149 2 32 16384 100000 2147483648 Some("s") true 60 1000000000"#;

#[test]
fn words_give_hosts(rt: HostRuntime) -> Result<(), Fail> {
    compare(&rt, rt.alloc(), HOSTED, (None, "", ""))
}

// Words that ask for nothing that the program does, or for help.
const REFUSED: &[&str; 52] = &[
    "",
    "scripts",
    "--help",
    "script --history 0",
    "script --history 10000001",
    "script --units 16385",
    "script --units x",
    "script --units",
    "script --unit 5",
    "script --port 1",
    "serve",
    "serve --workers 1",
    "serve --port",
    "serve --port x",
    "serve --port 65536",
    "serve --port 0 --workers 0",
    "serve --port 0 --workers 17",
    "serve --port 0 --sessions 0",
    "serve --port 0 --sessions 65",
    "serve --port 0 --units 16385",
    "serve --port 0 --history 10000001",
    "serve --port 0 --help",
    "serve --port 0 --secret s",
    "serve --port 0 --idle 1",
    "serve --port 0 --memory 1",
    "script --connections 1",
    "host",
    "host --secret s",
    "host --port 65536",
    "host --port 0 --workers 0",
    "host --port 0 --workers 17",
    "host --port 0 --sessions 0",
    "host --port 0 --sessions 256",
    "host --port 0 --units 0",
    "host --port 0 --units 16385",
    "host --port 0 --history 0",
    "host --port 0 --history 10000001",
    "host --port 0 --memory",
    "host --port 0 --memory 0",
    "host --port 0 --memory 1099511627777",
    "host --port 0 --secret",
    "host --port 0 --open=1",
    "host --port 0 --open 1",
    "host --port 0 --open --open",
    "serve --port 0 --open",
    "host --port 0 --idle",
    "host --port 0 --idle 10081",
    "host --port 0 --idle -1",
    "host --port 0 --connections 0",
    "host --port 0 --connections 1000000001",
    "host --port 0 --port 0",
    "host --port 0 --help",
];

// A run refuses them with a text.
#[test]
fn refused_words(rt: HostRuntime) -> Result<(), Fail> {
    for line in REFUSED {
        let asked = asked_by(rt.alloc(), line)?;
        let (status, output, errors) = ended(rt.alloc(), line, TAKE, AMPLE)?;
        let is_said = output.is_empty() && !errors.is_empty();
        assert!(rt; asked.is_none() && status == Some(2) && is_said, "{line}");
    }
    Ok(())
}

// Words that are refused, with all that a run prints then.
const TEXTS: &[(&str, &str); 4] = &[
    (
        "script --history 0",
        "error: invalid value '0' for '--history <history>': 0 is not in 1..=10000000\n\nFor more information, try '--help'.\n",
    ),
    (
        "serve --workers 1",
        "error: the following required arguments were not provided:\n  --port <port>\n\nUsage: bench61499 serve --port <port> --workers <workers>\n\nFor more information, try '--help'.\n",
    ),
    (
        "host --port 0 --port 0",
        "error: the argument '--port <port>' cannot be used multiple times\n\nUsage: bench61499 host [OPTIONS] --port <port>\n\nFor more information, try '--help'.\n",
    ),
    (
        "scripts",
        "error: unrecognized subcommand 'scripts'\n\n  tip: a similar subcommand exists: 'script'\n\nUsage: bench61499 <COMMAND>\n\nFor more information, try '--help'.\n",
    ),
];

#[test]
fn what_is_said_of_refused_words(rt: HostRuntime) -> Result<(), Fail> {
    for (line, said) in TEXTS {
        let (status, output, errors) = ended(rt.alloc(), line, TAKE, AMPLE)?;
        let found = (status, output.as_str(), errors.as_str());
        assert_eq!(rt; found, (Some(2), "", *said), "{line}");
    }
    Ok(())
}

/// A request, how many spaces follow it, and the room of a run; then its status, what it writes, and what it prints on its errors.
type Script = (&'static [u8], usize, Room, u8, &'static str, &'static str);

const FEW_READS: Room = (1, ALWAYS, 1000);

const NO_WRITES: Room = (ALWAYS, 0, 1000);

const ONE_TURN: Room = (ALWAYS, ALWAYS, 1);

const LONG: usize = 1_048_577;

const RUNS: &[Script; 6] = &[
    (b"", 0, AMPLE, 0, "", ""),
    (TAKE, 0, AMPLE, 0, NO_JOB, ""),
    (TAKE, LONG, AMPLE, 1, NO_JOB, "bench61499: line too long\n"),
    (TAKE, 0, FEW_READS, 1, NO_JOB, "bench61499: read failed\n"),
    (TAKE, 0, NO_WRITES, 1, "", "bench61499: write failed\n"),
    (TAKE, 0, ONE_TURN, 1, NO_JOB, "bench61499: too many reads\n"),
];

#[test]
fn runs(rt: HostRuntime) -> Result<(), Fail> {
    for (request, spaces, room, status, output, said) in RUNS {
        let mut input = request.to_vec(rt.alloc())?;
        input.extend_from_slice(&vec![in rt.alloc(); b' '; *spaces]?)?;
        let (found, written, errors) = ended(rt.alloc(), "script", &input, *room)?;
        let found = (found, written.as_str(), errors.as_str());
        assert_eq!(rt; found, (Some(*status), *output, *said), "{said}");
    }
    Ok(())
}

// Why words could not be read, with the status and the message.
const UNREAD: &[(ErrorKind, u8, &str); 2] = &[
    (
        ErrorKind::InvalidData,
        2,
        "bench61499: a word of the command line is not UTF-8\n",
    ),
    (ErrorKind::OutOfMemory, 1, ""),
];

#[test]
fn words_that_could_not_be_read(rt: HostRuntime) {
    for (kind, status, said) in UNREAD {
        let mut errors = Vec::new(rt.alloc());
        let found = refuse_words(*kind, &mut errors);
        assert_eq!(rt; found, *status, "{said}");
        assert_eq!(rt; errors.as_slice(), said.as_bytes());
    }
}
