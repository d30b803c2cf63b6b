//! The program's arguments.
ghost use Rattle.std.specs.Prelude.{◌≡◌, ◌≤◌, IfOk, IfSome, List, codes, false, map, true};
ghost use Rattle.clap.specs.Words.{app_of, found_of, rows_of, rule_of, subcommand_rows_of};
ghost use Rattle.fb_program.specs.Words.{AreLimitsIn, Asks, IsAsked, IsFlagIn, IsHost, IsNumberIn, IsScript, IsServe, bench_app, history_option, idle_option, number_option, open_option, port_option, secret_option, units_option, workers_option};

use crate::asked::{HostSettings, Settings};
use clap::builder::ValueParser;
use clap::error::ErrorKind;
use clap::{Arg, ArgAction, ArgMatches, Command, Error};
use fb_wire::bench::Limits;
use std::alloc::{AllocError, Global};

const MOST_PORT: u64 = 65_535;

const MOST_WORKERS: u64 = 16;

const MOST_SESSIONS: u64 = 64;

const MOST_SEATS: u64 = 255;

const MOST_UNITS: u64 = 16_384;

const MOST_HISTORY: u64 = 10_000_000;

const MOST_MEMORY: u64 = 1_099_511_627_776;

/// A week.
const MOST_IDLE: u64 = 10_080;

const MOST_CONNECTIONS: u64 = 1_000_000_000;

/// The version of the program, and the kit by which it is proved and built.
const VERSION: &str = "1.0.0 (rattle-kit-13f)";

/// The units of a script and of a server that ends by itself, and those of one that stays: a plant has more than a test.
const FEW_UNITS: &str = "1024";

const ALL_UNITS: &str = "16384";

const LAST_CALL: &str =
    "How many calls are recorded before all further ones are refused, 1 to 10000000";

const NEW_START: &str = "After how many calls the history begins anew, 1 to 10000000";

const TEXTS: &str =
    "After how many bytes of texts that commits put the history begins anew, 1 to 1099511627776";

const CONNECTIONS: &str = "How many connections it lets in over its life, 1 to 64";

const SEATS: &str = "How many sessions there are at once, 1 to 255";

const LAST_SESSION: &str = "After how many sessions it closes, 1 to 1000000000";

/// An option `--NAME N`, with N from 1 to `most`, its default, and a sentence on it.
fn number_option<'a>(
    alloc: Global,
    name: &'a str,
    most: u64,
    default: &'a str,
    help: &'a str,
) -> Arg<'a>
    ensures rule { rule_of result ≡ number_option name.now most default.now }
    ensures local { result.global ≡ false }
{
    Arg::new(alloc, name)
        .long(name)
        .value_parser(ValueParser::unsigned(1, most))
        .default_value(default)
        .help(help)
}

fn units_option<'a>(alloc: Global, default: &'a str) -> Arg<'a>
    ensures rule { rule_of result ≡ units_option default.now }
    ensures local { result.global ≡ false }
{
    let help = "How many units there may be at once, 1 to 16384";
    number_option(alloc, "units", MOST_UNITS, default, help)
}

fn history_option<'a>(alloc: Global, help: &'a str) -> Arg<'a>
    ensures rule { rule_of result ≡ history_option }
    ensures local { result.global ≡ false }
{
    number_option(alloc, "history", MOST_HISTORY, "100000", help)
}

fn workers_option<'a>(alloc: Global) -> Arg<'a>
    ensures rule { rule_of result ≡ workers_option }
    ensures local { result.global ≡ false }
{
    let help = "How many threads compute faults, networks and plans, 1 to 16";
    number_option(alloc, "workers", MOST_WORKERS, "2", help)
}

fn port_option<'a>(alloc: Global) -> Arg<'a>
    ensures rule { rule_of result ≡ port_option }
    ensures local { result.global ≡ false }
{
    Arg::new(alloc, "port")
        .long("port")
        .value_parser(ValueParser::unsigned(0, MOST_PORT))
        .required(true)
        .help("The port on 127.0.0.1, or 0 for any free one")
}

fn idle_option<'a>(alloc: Global) -> Arg<'a>
    ensures rule { rule_of result ≡ idle_option }
    ensures local { result.global ≡ false }
{
    Arg::new(alloc, "idle")
        .long("idle")
        .value_parser(ValueParser::unsigned(0, MOST_IDLE))
        .default_value("60")
        .help("After how many minutes of silence a session ends, at most 10080, or 0 for never")
}

fn secret_option<'a>(alloc: Global) -> Arg<'a>
    ensures rule { rule_of result ≡ secret_option }
    ensures local { result.global ≡ false }
{
    Arg::new(alloc, "secret").long("secret").help(
        "The file whose first line is the secret, in the place of one that the host makes",
    )
}

fn open_option<'a>(alloc: Global) -> Arg<'a>
    ensures rule { rule_of result ≡ open_option }
    ensures local { result.global ≡ false }
{
    Arg::new(alloc, "open")
        .long("open")
        .action(ArgAction::SetTrue)
        .help("There is no secret: each user of this machine may connect")
}

fn command<'a>(alloc: Global) -> Result<Command<'a>, AllocError>
    ensures { IfOk result (λ c. app_of c ≡ bench_app) }
{
    let script = Command::new(alloc, "script")
        .arg(units_option(alloc, FEW_UNITS))?
        .arg(history_option(alloc, LAST_CALL))?;
    let serve = Command::new(alloc, "serve")
        .arg(port_option(alloc))?
        .arg(workers_option(alloc))?
        .arg(number_option(alloc, "sessions", MOST_SESSIONS, "1", CONNECTIONS))?
        .arg(units_option(alloc, FEW_UNITS))?
        .arg(history_option(alloc, LAST_CALL))?;
    let host = Command::new(alloc, "host")
        .arg(port_option(alloc))?
        .arg(workers_option(alloc))?
        .arg(number_option(alloc, "sessions", MOST_SEATS, "32", SEATS))?
        .arg(units_option(alloc, ALL_UNITS))?
        .arg(history_option(alloc, NEW_START))?
        .arg(number_option(alloc, "memory", MOST_MEMORY, "2147483648", TEXTS))?
        .arg(secret_option(alloc))?
        .arg(open_option(alloc))?
        .arg(idle_option(alloc))?
        .arg(number_option(
            alloc,
            "connections",
            MOST_CONNECTIONS,
            "1000000000",
            LAST_SESSION,
        ))?;
    let command = Command::new(alloc, "bench61499")
        .version(VERSION)
        .subcommand_required(true)
        .subcommand(script)?
        .subcommand(serve)?
        .subcommand(host)?;
    Ok(command)
}

fn number_at(matches: &ArgMatches<'_>, name: &str, least: u64, most: u64) -> Option<u64>
    ensures { IfSome result (λ n.
        IsNumberIn least most name.now (rows_of (found_of matches.now)) n) }
{
    let number = matches.get_one::<u64>(name)?;
    if least <= number && number <= most {
        Some(number)
    } else {
        None
    }
}

fn flag_in(matches: &ArgMatches<'_>, name: &str) -> bool
    ensures { IsFlagIn name.now (rows_of (found_of matches.now)) result }
{
    matches.get_flag(name)
}

fn limits_in(matches: &ArgMatches<'_>) -> Option<Limits>
    ensures { IfSome result (λ limits.
        AreLimitsIn (rows_of (found_of matches.now)) limits.units limits.history) }
{
    let units = number_at(matches, "units", 1, MOST_UNITS)?;
    let history = number_at(matches, "history", 1, MOST_HISTORY)?;
    let limits = Limits::new(units, history)?;
    Some(limits)
}

fn script_in<'a>(matches: &ArgMatches<'a>) -> Option<Settings<'a>>
    ensures { IfSome result (IsScript (rows_of (found_of matches.now))) }
{
    let units = number_at(matches, "units", 1, MOST_UNITS)?;
    let history = number_at(matches, "history", 1, MOST_HISTORY)?;
    Some(Settings::Script { units, history })
}

fn serve_in<'a>(matches: &ArgMatches<'a>) -> Option<Settings<'a>>
    ensures { IfSome result (IsServe (rows_of (found_of matches.now))) }
{
    let port = number_at(matches, "port", 0, MOST_PORT)?;
    let workers = number_at(matches, "workers", 1, MOST_WORKERS)?;
    let sessions = number_at(matches, "sessions", 1, MOST_SESSIONS)?;
    let units = number_at(matches, "units", 1, MOST_UNITS)?;
    let history = number_at(matches, "history", 1, MOST_HISTORY)?;
    Some(Settings::Serve {
        port: port as u16,
        workers: workers as u8,
        sessions: sessions as u8,
        units,
        history,
    })
}

fn host_in<'a>(matches: &ArgMatches<'a>) -> Option<Settings<'a>>
    ensures { IfSome result (IsHost (rows_of (found_of matches.now))) }
{
    let port = number_at(matches, "port", 0, MOST_PORT)?;
    let workers = number_at(matches, "workers", 1, MOST_WORKERS)?;
    let seats = number_at(matches, "sessions", 1, MOST_SEATS)?;
    let limits = limits_in(matches)?;
    let memory = number_at(matches, "memory", 1, MOST_MEMORY)?;
    let idle = number_at(matches, "idle", 0, MOST_IDLE)?;
    let connections = number_at(matches, "connections", 1, MOST_CONNECTIONS)?;
    Some(Settings::Host(HostSettings {
        port: port as u16,
        workers: workers as u8,
        sessions: seats as u8,
        limits,
        memory,
        secret: matches.get_str("secret"),
        is_open: flag_in(matches, "open"),
        idle,
        connections,
    }))
}

fn asked_in<'a>(matches: &ArgMatches<'a>) -> Option<Settings<'a>>
    ensures { IfSome result (λ s. IsAsked (subcommand_rows_of matches.now) s) }
{
    if let Some(script) = matches.subcommand_matches("script") {
        return script_in(script);
    }
    if let Some(host) = matches.subcommand_matches("host") {
        return host_in(host);
    }
    let serve = matches.subcommand_matches("serve")?;
    serve_in(serve)
}

/// Reads the program's words, of which the first is its name. A request for help is an error, as in
/// `clap`.
pub fn settings<'a>(alloc: Global, words: &'a [&'a str]) -> Result<Settings<'a>, Error>
    ensures { IfOk result (λ settings. Asks (map (λ word. word.now) words.now) settings) }
{
    let mut command = command(alloc)?;
    let matches = command.try_get_matches_from_mut(words)?;
    match asked_in(&matches) {
        Some(settings) => Ok(settings),
        None => Err(command.error(ErrorKind::ValueValidation, "no settings")?),
    }
}
