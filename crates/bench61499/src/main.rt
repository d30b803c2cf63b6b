//! The program `bench61499`: a workbench for IEC 61499 units that answers requests, one on each line.
#![tactic(auto)]

mod secret;

use crate::secret::{HostSecret, RANDOMNESS, draw, wanted_secret};
use fb_host::{
    COMMIT_WAIT, EntranceConfig, FIRST_LINE_TIMEOUT, FIRST_LINES, HostConfig, Identity,
    KEY_TIMEOUT, REPLY_TIMEOUT, host_on,
};
use fb_program::wire::{FromRead, IntoWrite};
use fb_program::{
    HostSettings, Outcome, ServerSettings, refuse_file, refuse_port, refuse_words, run,
};
use fb_serve::{ServerConfig, TURNS, serve};
use std::alloc::{AllocError, Global};
use std::io::Write;
use std::net::{Net, TcpListener, TcpStream};
use std::process::ExitCode;
use std::sync::{Mutex, Wait};
use std::thread::Threads;
use std::time::Clock;
use std::{env, io};

/// How many milliseconds a minute has.
const MINUTE: u64 = 60_000;

fn words(rt: &HostRuntime) -> io::Result<Vec<String>> {
    let words: Result<Vec<String>, AllocError> = env::args(rt)?.collect(rt.alloc());
    Ok(words?)
}

fn texts<'a>(alloc: Global, words: &'a [String]) -> Result<Vec<&'a str>, AllocError> {
    let mut texts = Vec::new(alloc);
    for word in words {
        texts.push(word.as_str())?;
    }
    Ok(texts)
}

/// What the system's randomness gives a host: the identity of its workbench, and the key of its challenges.
fn draw_config(rt: &HostRuntime, settings: &HostSettings<'_>) -> io::Result<HostConfig> {
    let mut high = [0; 8];
    let mut low = [0; 8];
    let identity = draw(rt)?;
    high.copy_from_slice(&identity[..8]);
    low.copy_from_slice(&identity[8..16]);
    Ok(HostConfig {
        workers: settings.workers,
        sessions: settings.sessions,
        limits: settings.limits,
        memory: settings.memory,
        entrance: EntranceConfig {
            first_lines: FIRST_LINES,
            first_line_timeout: FIRST_LINE_TIMEOUT,
            challenge_key: draw(rt)?,
        },
        idle_timeout: settings.idle.saturating_mul(MINUTE),
        reply_timeout: REPLY_TIMEOUT,
        commit_wait: COMMIT_WAIT,
        key_timeout: KEY_TIMEOUT,
        connections: settings.connections,
        workbench: Identity {
            high: u64::from_le_bytes(high),
            low: u64::from_le_bytes(low),
        },
    })
}

/// Listens at a port of 127.0.0.1, or at any free one for 0. It gives the port as well.
fn listen(rt: &HostRuntime, port: u16) -> io::Result<(TcpListener, u16)> {
    let listener = TcpListener::bind(rt, ("127.0.0.1", port))?;
    let port = listener.local_addr()?.port();
    Ok((listener, port))
}

/// A server that stays, before it begins.
#[derive(Drop)]
struct Prepared {
    listener: TcpListener,
    config: HostConfig,
    secret: HostSecret,
}

/// Prepares a server that stays. If that fails, this prints why, and gives the status of the program.
fn prepare<E: Write>(
    rt: &HostRuntime,
    settings: &HostSettings<'_>,
    errors: &mut E,
) -> Result<Prepared, u8> {
    let wanted = wanted_secret(rt, settings, errors)?;
    let (listener, port) = match listen(rt, settings.port) {
        Ok(listening) => listening,
        Err(error) => return Err(refuse_port(settings.port, &error, errors)),
    };
    let config = match draw_config(rt, settings) {
        Ok(config) => config,
        Err(error) => return Err(refuse_file(RANDOMNESS, &error, errors)),
    };
    let secret = HostSecret::at(rt, port, wanted, errors)?;
    Ok(Prepared {
        listener,
        config,
        secret,
    })
}

/// Runs a server that ends by itself. It gives the status of the program.
fn run_server<
    R: Net<Listener = TcpListener, Stream = TcpStream> + Threads + Wait + Clock + Sync,
    W: Write + Drop,
    E: Write,
>(rt: &R, alloc: Global, settings: ServerSettings, out: W, errors: &mut E) -> u8 {
    let ServerSettings {
        port,
        workers,
        sessions,
        limits,
    } = settings;
    let config = ServerConfig {
        workers,
        sessions,
        limits,
    };
    let mut writer = IntoWrite::new(out);
    let ended = serve(rt, alloc, port, config, &mut writer, errors);
    ended.status
}

/// Runs a server that stays. It gives the status of the program.
fn run_host<R: Threads + Wait + Clock + Sync, W: Write + Drop, E: Write + Send + Drop>(
    rt: &R,
    alloc: Global,
    prepared: &Prepared,
    out: W,
    errors: E,
) -> u8 {
    let mut writer = IntoWrite::new(out);
    let errors = Mutex::new(errors);
    let ended = host_on(
        rt,
        alloc,
        &prepared.listener,
        prepared.config,
        &prepared.secret.bytes,
        &mut writer,
        &errors,
    );
    ended.status
}

fn main(rt: HostRuntime) -> ExitCode {
    let words = match words(&rt) {
        Ok(words) => words,
        Err(error) => return ExitCode::from(refuse_words(error.kind(), &mut rt.stderr())),
    };
    let Ok(texts) = texts(rt.alloc(), &words) else {
        return ExitCode::from(refuse_words(io::ErrorKind::OutOfMemory, &mut rt.stderr()));
    };
    let mut reader = FromRead::new(rt.stdin());
    let mut writer = IntoWrite::new(rt.stdout());
    let mut errors = rt.stderr();
    let outcome = run(
        rt.alloc(),
        &texts,
        &mut reader,
        &mut writer,
        &mut errors,
        TURNS,
    );
    let status = match outcome {
        Outcome::Ended(status) => status,
        Outcome::Serves(settings) => {
            run_server(&rt, rt.alloc(), settings, rt.stdout(), &mut errors)
        }
        Outcome::Hosts(settings) => match prepare(&rt, &settings, &mut errors) {
            Err(status) => status,
            Ok(prepared) => {
                let status = run_host(&rt, rt.alloc(), &prepared, rt.stdout(), errors);
                prepared.secret.forget(&rt);
                status
            }
        },
    };
    ExitCode::from(status)
}
