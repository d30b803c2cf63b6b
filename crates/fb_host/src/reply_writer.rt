//! Replies as they are written to a connection. Each has a time of its own, so that a peer that reads a byte now and then holds no session for long.
ghost use Rattle.std.specs.{Io.KnownBytes.{Keeps}, Prelude.{◌≡◌, None}};
ghost use Rattle.fb_host.specs.Replies.{IsReplyWait};

use std::io;
use std::io::{ErrorKind, Write};
use std::net::TcpStream;
use std::time::{Clock, Duration, Instant};

/// For how many milliseconds a write may wait whose reply began `passed` milliseconds ago. None if the reply has taken its `most`.
fn reply_wait(passed: u64, most: u64, idle: u64) -> Option<u64>
    ensures { IsReplyWait passed most idle result }
{
    if most <= passed {
        return None;
    }
    let left = most - passed;
    if idle == 0 || left <= idle {
        return Some(left);
    }
    Some(idle)
}

/// Writes replies to a stream, of which each ends with a flush: how many milliseconds one may take, and for how many a write may wait, when the present one
/// began, and for how long the last write could wait.
#[derive(Drop)]
pub(crate) struct ReplyWriter<'a, R: Clock> {
    rt: &'a R,
    stream: &'a TcpStream,
    reply_timeout: u64,
    idle_timeout: u64,
    begun: Option<Instant>,
    wait: u64,
}

impl<'a, R: Clock> ReplyWriter<'a, R> {
    /// No reply has begun.
    pub(crate) fn new(
        rt: &'a R,
        stream: &'a TcpStream,
        reply_timeout: u64,
        idle_timeout: u64,
    ) -> ReplyWriter<'a, R> {
        ReplyWriter {
            rt,
            stream,
            reply_timeout,
            idle_timeout,
            begun: None,
            wait: 0,
        }
    }

    /// How many milliseconds have passed since the reply began, which it does now if it has not yet.
    fn passed(&mut self) -> io::Result<u64> {
        let now = Instant::now(self.rt)?;
        let Some(begun) = self.begun else {
            self.begun = Some(now);
            return Ok(0);
        };
        Ok(u64::try_from(now.duration_since(begun).as_millis()).unwrap_or(u64::MAX))
    }

    /// The next write waits for this number of milliseconds at most.
    fn set_wait(&mut self, wait: u64) -> io::Result<()> {
        if wait != self.wait {
            self.stream
                .set_write_timeout(Some(Duration::from_millis(wait)))?;
            self.wait = wait;
        }
        Ok(())
    }
}

impl<R: Clock> Write for ReplyWriter<'_, R> {
    fn write(&mut self, buf: &[u8]) -> io::Result<usize> {
        let passed = self.passed()?;
        let Some(wait) = reply_wait(passed, self.reply_timeout, self.idle_timeout) else {
            return Err(io::Error::from(ErrorKind::TimedOut));
        };
        self.set_wait(wait)?;
        let mut stream = self.stream;
        stream.write(buf)
    }

    fn flush(&mut self) -> io::Result<()>
        ensures bytes { Keeps None None }
        ensures ended { self.new.begun ≡ None }
    {
        self.begun = None;
        Ok(())
    }
}
