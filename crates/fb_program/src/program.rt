//! The program, over the streams that it gets.
ghost use Rattle.std.specs.{Prelude.{◌≡◌, ◌≢◌, ◌<◌, ◌≤◌, ◌++◌, ℕ, List, false, map}, Io.KnownBytes.{IsAtEnd}, declared.io.ErrorKind.TheVariants.{InvalidData}};
ghost use Rattle.fb_streams.specs.Streams.{StaysFlushed};
ghost use Rattle.fb_wire.specs.History.Limits.{AreLimits};
ghost use Rattle.fb_program.specs.Program.{BenchSays, HasDone};

use crate::arguments::settings;
use crate::asked::{HostSettings, Settings};
use clap::Error;
use clap::error::ErrorKind;
use fb_wire::bench::{Bench, Limits};
use fb_wire::{Feed, RunEnd, Sink, error_of, run_script};
use std::alloc::Global;
use std::io::{self, Write};
use std::mem;

/// The caller whose calls those of a script are.
const SCRIPT_CALLER: u32 = 1;

/// The input ended, and each line was answered.
const DONE: u8 = 0;

/// The run failed.
const FAILED: u8 = 1;

/// The words ask for nothing that the program does, or for help.
const MISUSED: u8 = 2;

/// The server that the words ask for.
#[derive(Clone, Copy)]
pub struct ServerSettings {
    /// The port that it listens on, or 0 for any free one.
    pub port: u16,
    /// How many workers there are.
    pub workers: u8,
    /// The number of connections after which it closes.
    pub sessions: u8,
    /// How many units there may be, and how many calls may be recorded.
    pub limits: Limits,
}

/// The result of a run.
#[derive(Clone, Copy)]
pub enum Outcome<'a> {
    /// It is over, with this status of the program.
    Ended(u8),
    /// The words ask for a server, which is still to be run.
    Serves(ServerSettings),
    /// The words ask for a server that stays, which is still to be run.
    Hosts(HostSettings<'a>),
}

/// The limits with these numbers, which are in their ranges.
fn limits_of(units: u64, history: u64) -> Limits
    requires { AreLimits units history }
    ensures { result ≡ record { units = units; history = history } }
{
    match Limits::new(units, history) {
        Some(limits) => limits,
        None => unreachable!(),
    }
}

/// Runs the script on a new workbench, and gives the status. The memory of the workbench is not given back.
fn script<F: Feed, S: Sink, E: Write>(
    alloc: Global,
    limits: Limits,
    reader: &mut F,
    writer: &mut S,
    errors: &mut E,
    turns: u64,
) -> u8
    requires reader { F.has_failed reader.old ≡ false }
    requires open { F.has_ended reader.old ≡ false }
    requires writer { S.has_failed writer.old ≡ false }
    ensures status { result ≤ 1 }
    ensures said { (bytes : List ℕ) × (out : List ℕ)
        × (F.given reader.new ≡ F.given reader.old ++ bytes)
        × (S.held writer.new ≡ S.held writer.old ++ out)
        × BenchSays limits result bytes out }
    ensures whole { result ≡ 0 → IsAtEnd (F.left reader.new) }
    ensures flushed { StaysFlushed (S.is_flushed writer.old) (S.has_failed writer.new)
        (S.is_flushed writer.new) }
{
    let mut bench = Bench::new(alloc, limits);
    let end = run_script(alloc, reader, writer, &mut bench, SCRIPT_CALLER, turns);
    // The program ends next, and the system then takes all memory back at once.
    mem::forget(bench);
    match error_of(end) {
        None => DONE,
        Some(fault) => {
            let _ = writeln!(errors, "bench61499: {fault}");
            FAILED
        }
    }
}

/// Refuses words that ask for nothing, with the text of the command line reader. If memory ran out for them nothing is printed.
fn refuse<E: Write>(error: &Error, errors: &mut E) -> u8
    ensures some { 0 < result }
    ensures status { result ≤ 2 }
    ensures silent { result ≡ 1 → errors.new ≡ errors.old }
{
    if error.kind() == ErrorKind::OutOfMemory {
        return FAILED;
    }
    let _ = write!(errors, "{error}");
    MISUSED
}

/// Refuses words that could not be read, since one of them is no UTF-8, or memory ran out, and then nothing is printed.
pub fn refuse_words<E: Write>(kind: io::ErrorKind, errors: &mut E) -> u8
    ensures text { kind ≡ InvalidData → result ≡ 2 }
    ensures memory { kind ≢ InvalidData → result ≡ 1 }
    ensures silent { kind ≢ InvalidData → errors.new ≡ errors.old }
{
    if kind == io::ErrorKind::InvalidData {
        let _ = writeln!(
            errors,
            "bench61499: a word of the command line is not UTF-8"
        );
        return MISUSED;
    }
    FAILED
}

/// Does what the words ask for, if it is a script, prints on `errors` what went wrong, and gives the
/// status of the program. Words that ask for a server are given back as what they ask for, and
/// nothing is done.
pub fn run<'a, F: Feed, S: Sink, E: Write>(
    alloc: Global,
    words: &'a [&'a str],
    reader: &mut F,
    writer: &mut S,
    errors: &mut E,
    turns: u64,
) -> Outcome<'a>
    requires reader { F.has_failed reader.old ≡ false }
    requires open { F.has_ended reader.old ≡ false }
    requires writer { S.has_failed writer.old ≡ false }
    // What was written is all, a prefix or nothing of what a new workbench answers to the bytes that
    // were read.
    ensures said { (bytes : List ℕ) × (out : List ℕ)
        × (F.given reader.new ≡ F.given reader.old ++ bytes)
        × (S.held writer.new ≡ S.held writer.old ++ out)
        × HasDone (map (λ word. word.now) words.now) result bytes out }
    // If the status is 0, the input was read to its end.
    ensures whole { result ≡ Outcome.Ended 0 → IsAtEnd (F.left reader.new) }
    // All that was written is flushed, if it was before and no write failed.
    ensures flushed { StaysFlushed (S.is_flushed writer.old) (S.has_failed writer.new)
        (S.is_flushed writer.new) }
{
    match settings(alloc, words) {
        Ok(asked) => match asked {
            Settings::Script { units, history } => {
                let limits = limits_of(units, history);
                Outcome::Ended(script(alloc, limits, reader, writer, errors, turns))
            }
            Settings::Serve {
                port,
                workers,
                sessions,
                units,
                history,
            } => Outcome::Serves(ServerSettings {
                port,
                workers,
                sessions,
                limits: limits_of(units, history),
            }),
            Settings::Host(host) => Outcome::Hosts(host),
        },
        Err(error) => Outcome::Ended(refuse(&error, errors)),
    }
}
