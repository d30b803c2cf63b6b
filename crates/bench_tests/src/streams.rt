//! Runs over streams that reach their end, stop or fail.
use crate::conversation::{ALWAYS, Pace, WIDE, new_bench, run_over};
use fb_wire::{Feed, FromRead, IntoWrite, RunEnd, Sink, StreamError, run_script};
use std::alloc::Global;
use std::io::{self, ErrorKind, Write};
use std::process::Abort;
use std::test::Fail;

const TAKE: &[u8] = b"{\"op\":\"take\"}\n";

// The same without its end, and with a torn line behind it.
const UNENDED: &[u8] = b"{\"op\":\"take\"}";

const TORN: &[u8] = b"{\"op\":\"take\"}\n{\"op\":\"ta";

const NO_JOB: &[u8] = b"{\"job\":0}\n";

// The first six bytes of it.
const CUT_OFF: &[u8] = b"{\"job\"";

// The reply to a line that is no JSON, and both.
const NO_REQUEST: &[u8] = b"{\"refused\":\"BadRequest\"}\n";

const BOTH: &[u8] = b"{\"job\":0}\n{\"refused\":\"BadRequest\"}\n";

// One byte a read, and three a write.
const SLOW: Pace = (1, ALWAYS);

const THREES: Pace = (3, ALWAYS);

// All in one read or write.
const WHOLE: Pace = (8192, ALWAYS);

/// The input, its reads, the writes, and the turns; then the end and what is written.
type Row = (&'static [u8], Pace, Pace, u64, RunEnd, &'static [u8]);

const RUNS: &[Row] = &[
    (TAKE, SLOW, THREES, 13, RunEnd::TurnsOver, b""),
    (TAKE, SLOW, THREES, 14, RunEnd::TurnsOver, NO_JOB),
    (TAKE, SLOW, THREES, 15, RunEnd::End, NO_JOB),
    (UNENDED, SLOW, THREES, 14, RunEnd::End, NO_JOB),
    (b"", SLOW, THREES, 1, RunEnd::End, b""),
    // The fourth read of five bytes fails.
    (TAKE, (5, 3), WIDE, 100, RunEnd::ReadFailed, NO_JOB),
    // The second write of six bytes fails.
    (TAKE, (5, ALWAYS), (6, 1), 100, RunEnd::WriteFailed, CUT_OFF),
    // All in one read, and the end in the next, behind which a read would fail.
    (TAKE, (8192, 2), WIDE, 1000, RunEnd::End, NO_JOB),
    (b"", (8192, 1), WIDE, 1000, RunEnd::End, b""),
    // All in one read, and then the next read, the first write or the turns are at fault.
    (TAKE, (8192, 1), WIDE, 1000, RunEnd::ReadFailed, NO_JOB),
    (TAKE, WHOLE, (8192, 0), 1000, RunEnd::WriteFailed, b""),
    (TAKE, WHOLE, WIDE, 1, RunEnd::TurnsOver, NO_JOB),
    // The input ends in a line, and a line is no text.
    (TORN, WIDE, WIDE, 1000, RunEnd::End, BOTH),
    (UNENDED, WIDE, WIDE, 1000, RunEnd::End, NO_JOB),
    (b"\xff\n", WIDE, WIDE, 1000, RunEnd::End, NO_REQUEST),
    (b"", WIDE, WIDE, 1000, RunEnd::End, b""),
    // A line of blanks is passed over.
    (b"  \n", WIDE, WIDE, 1000, RunEnd::End, b""),
    (b" \t\r\n", WIDE, WIDE, 1000, RunEnd::End, b""),
];

// Compares how a run on a new workbench ends, what it writes, whether a read comes to the end, and whether a read or a write fails.
fn compare(
    rt: &impl Abort,
    alloc: Global,
    input: &[u8],
    (read, write): (Pace, Pace),
    turns: u64,
    (end, output): (RunEnd, &[u8]),
) -> Result<(), Fail> {
    let mut bench = new_bench(alloc, 10, 1000)?;
    let run = run_over(alloc, &mut bench, 1, input, read, write, turns)?;
    assert_eq!(rt; run.end, end);
    assert!(rt; run.output.as_slice() == output);
    assert_eq!(rt; run.read_ended, end == RunEnd::End);
    let failed = [run.read_failed, run.write_failed];
    assert!(rt; failed == [end == RunEnd::ReadFailed, end == RunEnd::WriteFailed]);
    Ok(())
}

#[test]
fn runs(rt: HostRuntime) -> Result<(), Fail> {
    for (input, read, write, turns, end, output) in RUNS {
        compare(
            &rt,
            rt.alloc(),
            input,
            (*read, *write),
            *turns,
            (*end, output),
        )?;
    }
    Ok(())
}

fn compare_long(
    rt: &impl Abort,
    alloc: Global,
    input: &[u8],
    end: RunEnd,
    output: &[u8],
) -> Result<(), Fail> {
    compare(rt, alloc, input, (WIDE, WIDE), 1_000_000, (end, output))
}

// Spaces as long as a line may be are passed over, a line of them that is no JSON is refused, and a byte more is too long.
#[test]
fn long_lines(rt: HostRuntime) -> Result<(), Fail> {
    let spaces = vec![in rt.alloc(); b' '; 1_048_576]?;
    compare_long(&rt, rt.alloc(), &spaces, RunEnd::End, b"")?;
    let letters = vec![in rt.alloc(); b'x'; 1_048_576]?;
    compare_long(&rt, rt.alloc(), &letters, RunEnd::End, NO_REQUEST)?;
    let mut long = TAKE.to_vec(rt.alloc())?;
    long.extend_from_slice(&spaces)?;
    long.push(b' ')?;
    compare_long(&rt, rt.alloc(), &long, RunEnd::LineTooLong, NO_JOB)
}

// A run over std's readers and writers comes to its end, and none of them has failed.
#[test]
fn streams_of_std(rt: HostRuntime) -> Result<(), Fail> {
    let mut bench = new_bench(rt.alloc(), 10, 1000)?;
    let mut output = Vec::new(rt.alloc());
    let mut feed = FromRead::new(TAKE);
    let mut sink = IntoWrite::new(&mut output);
    let end = run_script(rt.alloc(), &mut feed, &mut sink, &mut bench, 1, 2);
    assert_eq!(rt; (end, feed.failed() || sink.failed()), (RunEnd::End, false));
    assert!(rt; output.as_slice() == NO_JOB);
    Ok(())
}

// Takes all bytes, and fails at a flush.
#[derive(Drop)]
struct NeverFlushed;

impl Write for NeverFlushed {
    fn write(&mut self, bytes: &[u8]) -> io::Result<usize> {
        Ok(bytes.len())
    }

    fn flush(&mut self) -> io::Result<()> {
        Err(io::Error::from(ErrorKind::Other))
    }
}

#[test]
fn a_flush_that_fails(rt: HostRuntime) {
    let mut sink = IntoWrite::new(NeverFlushed);
    assert_eq!(rt; sink.flush(), Err(StreamError));
    assert!(rt; sink.failed());
}
