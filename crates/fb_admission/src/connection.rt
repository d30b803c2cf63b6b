//! A connection, with what was read of it.
use crate::looks::Came;
use std::alloc::Global;
use std::io;
use std::io::{ErrorKind, Read};
use std::net::TcpStream;

/// A connection, and the bytes that were read of it and not yet passed on.
#[derive(Drop)]
pub struct Connection {
    pub stream: TcpStream,
    pub(crate) head: Vec<u8>,
}

impl Connection {
    pub(crate) fn new(alloc: Global, stream: TcpStream) -> Connection {
        Connection {
            stream,
            head: Vec::new(alloc),
        }
    }

    /// Reads what has come since the last look, up to a KiB, without a wait.
    pub(crate) fn read_some(&mut self) -> Came {
        let mut buffer = [0; 1_024];
        let mut stream = &self.stream;
        let count = match stream.read(&mut buffer) {
            Ok(count) => count,
            Err(error) => {
                return if error.kind() == ErrorKind::WouldBlock {
                    Came::Nothing
                } else {
                    Came::Failure
                };
            }
        };
        if count == 0 {
            return Came::End;
        }
        match self.head.extend_from_slice(&buffer[..count]) {
            Ok(()) => Came::Bytes,
            Err(_) => Came::Failure,
        }
    }
}

/// Reads the bytes that were read before, and then the stream. It records whether a read waited too long.
#[derive(Drop)]
pub struct ConnectionReader<'a> {
    head: &'a [u8],
    stream: &'a TcpStream,
    pub is_idle: bool,
}

impl<'a> ConnectionReader<'a> {
    /// Nothing is read yet.
    pub fn of(connection: &'a Connection) -> ConnectionReader<'a> {
        ConnectionReader {
            head: connection.head.as_slice(),
            stream: &connection.stream,
            is_idle: false,
        }
    }
}

impl Read for ConnectionReader<'_> {
    fn read(&mut self, buf: &mut [u8]) -> io::Result<usize> {
        if !self.head.is_empty() {
            let count = self.head.len().min(buf.len());
            let (prefix, behind) = self.head.split_at(count);
            buf[..count].copy_from_slice(prefix);
            self.head = behind;
            return Ok(count);
        }
        let mut stream = self.stream;
        match stream.read(buf) {
            Ok(count) => Ok(count),
            Err(error) => {
                self.is_idle = error.kind() == ErrorKind::WouldBlock;
                Err(error)
            }
        }
    }
}
