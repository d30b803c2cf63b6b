//! Admission: one thread takes connections in as they come, reads the first line of each, and hands those that may come in to the threads of seats.
ghost use Rattle.std.specs.Prelude.{◌≡◌, []};

use crate::arrivals::{Arrival, Arrivals};
use crate::connection::Connection;
use crate::connection_queue::ConnectionQueue;
use crate::head::{begins_request, is_enough, take_proof};
use crate::looks::{Came, Fate, Step, at_once, fate_of, next_step};
use crate::notices::Notices;
use fb_secret::{challenge, challenge_line};
use fb_serve::pause;
use std::alloc::Global;
use std::io::{ErrorKind, Write};
use std::net::{OpenListener, Shutdown, TcpListener, TcpStream};
use std::sync::Wait;
use std::time::{Clock, Duration, Instant};
use std::{io, thread};

/// How many first lines are read at once.
pub const FIRST_LINES: u16 = 1_000;

/// How many milliseconds a connection may take to send its first line.
pub const FIRST_LINE_TIMEOUT: u64 = 10_000;

/// How many milliseconds pass from one look at the connections to the next.
const PAUSE: u64 = 2;

const NO_SEAT: &[u8] = b"{\"refused\":\"NoSeat\"}\n";

/// How many milliseconds a connection that is refused may take to read why. What it still sends is read too, so that nothing unread takes the answer away.
const REFUSAL_TIMEOUT: u64 = 200;

/// How a host admits.
#[derive(Clone, Copy)]
pub struct EntranceConfig {
    /// How many first lines are read at once.
    pub first_lines: u16,
    /// How many milliseconds a connection may take to send its first line.
    pub first_line_timeout: u64,
    /// The key of the challenges, which nobody else knows: each is the code of its number, so none comes twice and none takes a descriptor.
    pub challenge_key: [u8; 32],
}

/// What admission shares with the threads of seats and the one that prints.
#[derive(Drop)]
pub struct Entrance {
    pub seats: ConnectionQueue,
    pub notices: Notices,
    pub config: EntranceConfig,
}

/// Why a connection gets no seat.
#[derive(Clone, Copy, PartialEq, Eq)]
enum Turned {
    /// Its first line does not prove the secret.
    WrongSecret,
    /// It does not begin with a request, its first line did not come in time, it had to give way, it has gone, no seat is free, or there is no memory.
    Otherwise,
}

/// Admission: what it works with, and the connections that have no seat yet.
#[derive(Drop)]
pub struct Admission<'r, 'e, 's, R: Wait + Clock> {
    rt: &'r R,
    alloc: Global,
    entrance: &'e Entrance,
    secret: &'s [u8],
    arrivals: Arrivals,
}

/// How many milliseconds have passed from one time to the other, or no end of them if one is not known.
fn passed(since: Option<Instant>, now: Option<Instant>) -> u64 {
    match (since, now) {
        (Some(since), Some(now)) => {
            u64::try_from(now.duration_since(since).as_millis()).unwrap_or(u64::MAX)
        }
        _ => u64::MAX,
    }
}

impl<'r, 'e, 's, R: Wait + Clock> Admission<'r, 'e, 's, R> {
    /// No connection is there yet.
    pub fn new(
        rt: &'r R,
        alloc: Global,
        entrance: &'e Entrance,
        secret: &'s [u8],
    ) -> Admission<'r, 'e, 's, R>
        ensures none { result.arrivals.waiting.items ≡ [] }
        ensures most { result.arrivals.most ≡ entrance.now.config.first_lines }
    {
        Admission {
            rt,
            alloc,
            entrance,
            secret,
            arrivals: Arrivals::new(alloc, usize::from(entrance.config.first_lines)),
        }
    }

    /// Lets connections in as they come, until the last session has begun.
    pub fn admit(&mut self, listener: &TcpListener) {
        let rt = self.rt;
        for _ in rt.forever() {
            let left = self.entrance.seats.left(rt);
            match next_step(left, self.arrivals.len()) {
                Step::End => return,
                Step::Wait => self.accept_one(listener),
                Step::Look => {
                    self.accept_some(listener);
                    self.look_at_all();
                }
            }
        }
        // `forever` never ends.
        unreachable!()
    }

    /// Closes the connections that still wait, and those that are refused once they have read why.
    pub fn end(&mut self)
        ensures { self.new.arrivals.waiting.items ≡ [] }
    {
        let rt = self.rt;
        for _ in rt.forever() {
            if self.arrivals.len() == 0 {
                return;
            }
            self.look_at_all();
        }
        // `forever` never ends.
        unreachable!()
    }

    /// Waits for a connection, and takes it in. If the system gives none, it pauses.
    fn accept_one(&mut self, listener: &TcpListener) {
        match listener.accept() {
            Ok((stream, _peer)) => self.take_in(stream),
            Err(error) => {
                self.print_failure(&error);
                pause(self.rt);
            }
        }
    }

    /// Takes in connections that have come, a part of those that may be there at once. If the system gives none, the one that has waited longest gives way: it
    /// may be a descriptor that the next one lacks.
    fn accept_some(&mut self, listener: &TcpListener) {
        if listener.set_nonblocking(true).is_err() {
            return;
        }
        for _ in 0..at_once(usize::from(self.entrance.config.first_lines)) {
            match listener.accept() {
                Ok((stream, _peer)) => self.take_in(stream),
                Err(error) => {
                    if error.kind() == ErrorKind::WouldBlock {
                        break;
                    }
                    self.print_failure(&error);
                    let first = self.arrivals.take_first();
                    self.drop_counted(first);
                }
            }
        }
        let _ = listener.set_nonblocking(false);
    }

    /// Prints why the system gives no connection, once a minute.
    fn print_failure(&self, error: &io::Error) {
        let reason = error.raw_os_error().unwrap_or(0);
        self.entrance.notices.add_failure(self.rt, reason);
    }

    /// Counts a connection that gets no seat.
    fn count(&self, turned: Turned) {
        let is_wrong = turned == Turned::WrongSecret;
        self.entrance.notices.count_turned_away(self.rt, is_wrong);
    }

    /// Closes a connection that gives way. One that was refused was counted then.
    fn drop_counted(&self, arrival: Option<Arrival>) {
        if let Some(arrival) = arrival {
            if !arrival.is_refused {
                self.count(Turned::Otherwise);
            }
        }
    }

    /// Takes a connection in. If there is no room, the one that has waited longest gives way to it.
    fn take_in(&mut self, stream: TcpStream) {
        let number = self.arrivals.next_number();
        let connection = Connection::new(self.alloc, stream);
        let Some(arrival) = self.begin(connection, number) else {
            return;
        };
        let first = self.arrivals.make_room();
        self.drop_counted(first);
        let back = self.arrivals.add(arrival);
        self.drop_counted(back);
    }

    /// Asks a connection for the secret, if there is one. If there is none, and no seat either, it is refused at once. None if it is closed.
    fn begin(&self, connection: Connection, number: u64) -> Option<Arrival> {
        let has_secret = !self.secret.is_empty();
        if !has_secret && self.entrance.seats.idle(self.rt) == 0 {
            return self.refuse(connection);
        }
        let is_ready = connection.stream.set_nonblocking(true).is_ok();
        if !is_ready || (has_secret && !self.asks(&connection.stream, number)) {
            self.count(Turned::Otherwise);
            return None;
        }
        Some(Arrival {
            connection,
            number,
            since: Instant::now(self.rt).ok(),
            is_refused: false,
        })
    }

    /// Sends the challenge of this number. Whether it is sent.
    fn asks(&self, stream: &TcpStream, number: u64) -> bool {
        let Ok(challenge) = challenge(self.alloc, &self.entrance.config.challenge_key, number)
        else {
            return false;
        };
        let Ok(line) = challenge_line(self.alloc, challenge.as_bytes()) else {
            return false;
        };
        let mut out = stream;
        out.write_all(&line).is_ok()
    }

    /// Says that there is no seat. It gives the connection while that may be read.
    fn refuse(&self, connection: Connection) -> Option<Arrival> {
        self.count(Turned::Otherwise);
        if connection.stream.set_nonblocking(true).is_err() {
            return None;
        }
        let mut out = &connection.stream;
        let _ = out.write_all(NO_SEAT);
        let _ = connection.stream.shutdown(Shutdown::Write);
        Some(Arrival {
            connection,
            number: 0,
            since: Instant::now(self.rt).ok(),
            is_refused: true,
        })
    }

    /// Looks at each connection once, in their order, after a pause.
    fn look_at_all(&mut self) {
        thread::sleep(self.rt, Duration::from_millis(PAUSE));
        let now = Instant::now(self.rt).ok();
        let timeout = self.first_line_timeout();
        for _ in 0..self.arrivals.len() {
            let Some(arrival) = self.arrivals.take_first() else {
                return;
            };
            if let Some(arrival) = self.look_at(arrival, now, timeout) {
                let back = self.arrivals.add(arrival);
                self.drop_counted(back);
            }
        }
    }

    /// Looks at a connection, which may take this number of milliseconds to send its first line. It gives the connection if that waits on, or may still read that
    /// there is no seat.
    fn look_at(
        &self,
        arrival: Arrival,
        now: Option<Instant>,
        first_line_timeout: u64,
    ) -> Option<Arrival> {
        let mut arrival = arrival;
        if arrival.is_refused {
            // What it still sends is not kept.
            arrival.connection.head.clear();
        }
        let came = arrival.connection.read_some();
        let is_enough = !arrival.is_refused && self.has_enough(came, &arrival.connection);
        let timeout = if arrival.is_refused {
            REFUSAL_TIMEOUT
        } else {
            first_line_timeout
        };
        match fate_of(came, is_enough, passed(arrival.since, now), timeout) {
            Fate::Waits => Some(arrival),
            Fate::IsChecked => self.check(arrival),
            Fate::Ends => {
                self.drop_counted(Some(arrival));
                None
            }
        }
    }

    /// Whether enough was read to check a connection. If nothing has come, it is as at the last look: too little.
    fn has_enough(&self, came: Came, connection: &Connection) -> bool {
        came == Came::Bytes && is_enough(&connection.head, !self.secret.is_empty())
    }

    /// How many milliseconds a connection may take to send its first line. Once the last session has begun, nobody has time for one.
    fn first_line_timeout(&self) -> u64 {
        if self.entrance.seats.left(self.rt) == 0 {
            0
        } else {
            self.entrance.config.first_line_timeout
        }
    }

    /// Lets a connection in, if its head is right and a seat is free. It gives the connection if that may read that there is none.
    fn check(&self, arrival: Arrival) -> Option<Arrival> {
        let Arrival {
            mut connection,
            number,
            since: _,
            is_refused,
        } = arrival;
        if is_refused {
            return None;
        }
        if let Err(turned) = self.takes_head(&mut connection, number) {
            self.count(turned);
            return None;
        }
        match self.entrance.seats.offer(self.rt, connection) {
            Some(connection) => self.refuse(connection),
            None => None,
        }
    }

    /// Whether the head lets the connection in: by the proof in its first line, which is then taken off and answered, or, if there is no secret, by how its
    /// first request begins. Its session may wait for it then.
    fn takes_head(&self, connection: &mut Connection, number: u64) -> Result<(), Turned> {
        if !self.secret.is_empty() {
            let answer = self.answer(&mut connection.head, number)?;
            let mut out = &connection.stream;
            if out.write_all(&answer).is_err() {
                return Err(Turned::Otherwise);
            }
        } else if !begins_request(&connection.head) {
            return Err(Turned::Otherwise);
        }
        match connection.stream.set_nonblocking(false) {
            Ok(()) => Ok(()),
            Err(_) => Err(Turned::Otherwise),
        }
    }

    /// The answer to the proof in the first line, which is taken off.
    fn answer(&self, head: &mut Vec<u8>, number: u64) -> Result<Vec<u8>, Turned> {
        let Ok(challenge) = challenge(self.alloc, &self.entrance.config.challenge_key, number)
        else {
            return Err(Turned::Otherwise);
        };
        match take_proof(self.alloc, head, self.secret, challenge.as_bytes()) {
            Ok(Some(answer)) => Ok(answer),
            Ok(None) => Err(Turned::WrongSecret),
            Err(_) => Err(Turned::Otherwise),
        }
    }
}
