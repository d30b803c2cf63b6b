//! A conversation over streams of std of which each read, each write and each flush fails in turn, or a write takes nothing.
use crate::conversation::{exchanges_in, new_bench, said};
use fb_wire::bench::Bench;
use fb_wire::{FromRead, IntoWrite, RunEnd, error_of, run_script};
use std::alloc::Global;
use std::io;
use std::io::{ErrorKind, Read, Write};
use std::process::Abort;
use std::test::Fail;

/// A result that comes late, with a question that is refused and a line that is no request.
pub(crate) const LATE: &str = r#"
{"op":"commit","changes":[{"put":"C","base":0,"text":"FUNCTION_BLOCK C FBS S:E_SPLIT; END_FBS END_FUNCTION_BLOCK"},{"put":"E_SPLIT","base":0,"text":"FUNCTION_BLOCK E_SPLIT EVENT_INPUT EI; END_EVENT EVENT_OUTPUT EO1; EO2; END_EVENT END_FUNCTION_BLOCK"}]} => {"commit":1}
{"op":"take"} => {"job":1,"kind":"faults","unit":"C"}
{"op":"ask","kind":"net","unit":"C"} => {"refused":"NoSuchKey"}
{"op":"ask"} => {"refused":"BadRequest"}
{"op":"commit","changes":[{"put":"E_SPLIT","base":1,"text":"FUNCTION_BLOCK E_SPLIT EVENT_INPUT EI; END_EVENT EVENT_OUTPUT EO1; EO2; END_EVENT END_FUNCTION_BLOCK"}]} => {"commit":2}
{"op":"deliver","job":1} => {"refused":"Stale","unit":"E_SPLIT"}
{"op":"deliver","job":1} => {"refused":"Stale","unit":"E_SPLIT"}
{"op":"ask","kind":"faults","unit":"C"} => {"answer":"pending"}
{"op":"work","turns":9} => {"accepted":2}
{"op":"deliver","job":1} => {"refused":"NotPending"}
"#;

/// How many calls are recorded once this number of its lines are answered. The work takes three times, and delivers twice.
pub(crate) const LATE_CALLS: &[usize] = &[0, 1, 2, 3, 3, 4, 5, 6, 7, 12, 13];

/// What fails once this number of its kind were good.
#[derive(Clone, Copy, Debug)]
enum Fault {
    /// A read, where each gives at most this number of bytes.
    Read(usize),
    /// A write, where each takes at most this number of bytes.
    Write(usize),
    /// A write, which takes nothing and shows no error.
    EmptyWrite(usize),
    Flush,
}

/// More bytes than a line of the conversation has.
const LONG: usize = 8192;

/// Bytes that are read, those that were written, and how many reads, writes or flushes are good, whichever the fault is of.
#[derive(Drop)]
struct Stream<'a> {
    bytes: &'a [u8],
    held: Vec<u8>,
    fault: Fault,
    good: u64,
}

impl Stream<'_> {
    // One of these fails, or one less is good.
    fn pass(&mut self, kind: ErrorKind) -> io::Result<()> {
        if self.good == 0 {
            return Err(io::Error::from(kind));
        }
        self.good -= 1;
        Ok(())
    }
}

impl Read for Stream<'_> {
    fn read(&mut self, buffer: &mut [u8]) -> io::Result<usize> {
        let fault = self.fault;
        let piece = match fault {
            Fault::Read(piece) => {
                self.pass(ErrorKind::ConnectionReset)?;
                piece
            }
            _ => LONG,
        };
        let count = piece.min(self.bytes.len()).min(buffer.len());
        let bytes = self.bytes;
        buffer[..count].copy_from_slice(&bytes[..count]);
        self.bytes = &bytes[count..];
        Ok(count)
    }
}

impl Write for Stream<'_> {
    fn write(&mut self, bytes: &[u8]) -> io::Result<usize> {
        let fault = self.fault;
        let piece = match fault {
            Fault::EmptyWrite(_) if self.good == 0 => 0,
            Fault::Write(piece) | Fault::EmptyWrite(piece) => {
                self.pass(ErrorKind::BrokenPipe)?;
                piece
            }
            _ => LONG,
        };
        let count = piece.min(bytes.len());
        self.held.extend_from_slice(&bytes[..count])?;
        Ok(count)
    }

    fn flush(&mut self) -> io::Result<()> {
        match self.fault {
            Fault::Flush => self.pass(ErrorKind::BrokenPipe),
            _ => Ok(()),
        }
    }
}

fn stream_of(alloc: Global, bytes: &[u8], fault: Fault, good: usize) -> Stream<'_> {
    Stream {
        bytes,
        held: Vec::new(alloc),
        fault,
        good: good as u64,
    }
}

/// Request lines, the replies to them, how many calls are recorded once this number of them are answered, and a workbench that has
/// answered them.
#[derive(Drop)]
pub(crate) struct Conversation {
    pub(crate) requests: String,
    pub(crate) replies: String,
    pub(crate) calls: &'static [usize],
    pub(crate) whole: Bench,
}

pub(crate) fn conversation_of(
    alloc: Global,
    text: &str,
    calls: &'static [usize],
) -> Result<Conversation, Fail> {
    let (requests, replies) = exchanges_in(alloc, text)?;
    let mut whole = new_bench(alloc, 10, 1000)?;
    said(alloc, &mut whole, 1, requests.as_str())?;
    Ok(Conversation {
        requests,
        replies,
        calls,
        whole,
    })
}

// Whether the records of this number say the same.
fn is_same_at(bench: &Bench, whole: &Bench, number: u64) -> bool {
    match (bench.record(number), whole.record(number)) {
        (Some(record), Some(other)) => record.is_same(other),
        _ => false,
    }
}

/// Whether a workbench has recorded what the other one has first.
pub(crate) fn is_prefix(bench: &Bench, whole: &Bench) -> bool {
    for number in 0..bench.last_number() {
        if !is_same_at(bench, whole, number + 1) {
            return false;
        }
    }
    true
}

/// How many lines end in these bytes.
pub(crate) fn lines_in(bytes: &[u8]) -> usize {
    bytes.iter().filter(|byte| **byte == b'\n').count()
}

/// The text after this number of its lines.
pub(crate) fn behind(text: &str, lines: usize) -> &str {
    let mut rest = text;
    for _line in 0..lines {
        rest = match rest.split_once('\n') {
            Some((_, rest)) => rest,
            None => "",
        };
    }
    rest
}

// How many bytes the first lines have.
fn len_of(text: &str, lines: usize) -> usize {
    text.len().saturating_sub(behind(text, lines).len())
}

// What is written of the replies: those to each line that has come, or as many bytes as were taken.
fn output_wanted(conversation: &Conversation, fault: Fault, good: usize) -> &[u8] {
    let requests = conversation.requests.as_bytes();
    let replies = conversation.replies.as_str();
    let bytes = match fault {
        Fault::Read(piece) => {
            let bytes = piece.saturating_mul(good);
            len_of(replies, lines_in(requests.get(..bytes).unwrap_or(requests)))
        }
        Fault::Write(1) | Fault::EmptyWrite(1) => good,
        Fault::Write(_) | Fault::EmptyWrite(_) => len_of(replies, good),
        Fault::Flush => len_of(replies, good.saturating_add(1)),
    };
    let replies = replies.as_bytes();
    replies.get(..bytes).unwrap_or(replies)
}

// How a run with this fault ends, and whether the calls of one line more are made than are answered whole.
fn end_wanted(fault: Fault) -> (RunEnd, bool) {
    match fault {
        Fault::Read(_) => (RunEnd::ReadFailed, false),
        Fault::Write(_) | Fault::EmptyWrite(_) => (RunEnd::WriteFailed, true),
        Fault::Flush => (RunEnd::WriteFailed, false),
    }
}

// Whether a run of which so many are good, or all, ends so, writes this, and records the calls of its lines, or of one more.
fn is_right(
    alloc: Global,
    conversation: &Conversation,
    fault: Fault,
    good: usize,
    are_all: bool,
) -> Result<bool, Fail> {
    let requests = conversation.requests.as_bytes();
    let mut feed = FromRead::new(stream_of(alloc, requests, fault, good));
    let mut store = stream_of(alloc, b"", fault, good);
    let mut sink = IntoWrite::new(&mut store);
    let mut bench = new_bench(alloc, 10, 1000)?;
    let end = run_script(alloc, &mut feed, &mut sink, &mut bench, 1, 1_000_000);
    let (end_wanted, is_one_more) = if are_all {
        (RunEnd::End, false)
    } else {
        end_wanted(fault)
    };
    let output = output_wanted(conversation, fault, good);
    let lines = lines_in(output).saturating_add(usize::from(is_one_more));
    let calls = bench.len();
    let is_said = end == end_wanted && store.held.as_slice() == output;
    let are_calls = conversation.calls.get(lines) == Some(&calls);
    Ok(is_said && are_calls && is_prefix(&bench, &conversation.whole))
}

// How many of its kind there are in the whole run. The last read finds the end.
fn good_in_all(conversation: &Conversation, fault: Fault) -> usize {
    match fault {
        Fault::Read(piece) => conversation
            .requests
            .len()
            .div_ceil(piece.max(1))
            .saturating_add(1),
        Fault::Write(1) | Fault::EmptyWrite(1) => conversation.replies.len(),
        _ => lines_in(conversation.replies.as_bytes()),
    }
}

fn compare(rt: &impl Abort, alloc: Global, fault: Fault) -> Result<(), Fail> {
    let conversation = conversation_of(alloc, LATE, LATE_CALLS)?;
    let all = good_in_all(&conversation, fault);
    for good in 0..all.saturating_add(1) {
        let is_right = is_right(alloc, &conversation, fault, good, good == all)?;
        assert!(rt; is_right, "{fault:?}, {good} are good");
    }
    Ok(())
}

// A run answers the lines that have come whole.
#[test]
fn each_read_fails(rt: HostRuntime) -> Result<(), Fail> {
    for piece in [1, 7, 50, LONG] {
        compare(&rt, rt.alloc(), Fault::Read(piece))?;
    }
    Ok(())
}

// What is written is a prefix of the replies; the calls are made of the line whose reply is cut.
#[test]
fn each_write_fails(rt: HostRuntime) -> Result<(), Fail> {
    compare(&rt, rt.alloc(), Fault::Write(1))?;
    compare(&rt, rt.alloc(), Fault::Write(LONG))
}

#[test]
fn each_write_takes_nothing(rt: HostRuntime) -> Result<(), Fail> {
    compare(&rt, rt.alloc(), Fault::EmptyWrite(1))?;
    compare(&rt, rt.alloc(), Fault::EmptyWrite(LONG))
}

// The reply is written whose flush fails, and none behind it.
#[test]
fn each_flush_fails(rt: HostRuntime) -> Result<(), Fail> {
    compare(&rt, rt.alloc(), Fault::Flush)
}

/// Each end of a run, and what it prints.
const TEXTS: &[(RunEnd, &str); 6] = &[
    (RunEnd::End, ""),
    (RunEnd::LineTooLong, "line too long"),
    (RunEnd::ReadFailed, "read failed"),
    (RunEnd::WriteFailed, "write failed"),
    (RunEnd::TurnsOver, "too many reads"),
    (RunEnd::Memory, "out of memory"),
];

#[test]
fn each_end_has_a_text(rt: HostRuntime) -> Result<(), Fail> {
    for (end, text) in TEXTS {
        let found = match error_of(*end) {
            Some(error) => format!(in rt.alloc(); "{error}")?,
            None => String::new(rt.alloc()),
        };
        assert_eq!(rt; found.as_str(), *text, "{end:?}");
    }
    Ok(())
}
