//! Readers and writers that give or take little, fail, or are interrupted.

use std::alloc::Global;
use std::io::{self, ErrorKind, Read, Write};

// Gives a byte at a time, and is interrupted before each; may fail after the last.
#[derive(Drop)]
pub(super) struct Slow {
    pub rest: &'static [u8],
    pub interrupted: bool,
    pub fails: bool,
}

impl Read for Slow {
    fn read(&mut self, buf: &mut [u8]) -> io::Result<usize> {
        self.interrupted = !self.interrupted;
        if self.interrupted {
            return Err(io::Error::from(ErrorKind::Interrupted));
        }
        if self.fails && self.rest.is_empty() {
            return Err(io::Error::from(ErrorKind::UnexpectedEof));
        }
        let most = buf.len().min(1);
        self.rest.read(&mut buf[..most])
    }
}

// Is interrupted each time, and counts how often.
#[derive(Drop)]
pub(super) struct Interrupted {
    pub times: usize,
}

impl Interrupted {
    fn interrupt(&mut self) -> io::Result<usize> {
        self.times = self.times.wrapping_add(1);
        Err(io::Error::from(ErrorKind::Interrupted))
    }
}

impl Read for Interrupted {
    fn read(&mut self, _buf: &mut [u8]) -> io::Result<usize> {
        match self.interrupt() {
            Ok(_) => Ok(0),
            Err(error) => Err(error),
        }
    }
}

impl Write for Interrupted {
    fn write(&mut self, _buf: &[u8]) -> io::Result<usize> {
        match self.interrupt() {
            Ok(_) => Ok(0),
            Err(error) => Err(error),
        }
    }

    fn flush(&mut self) -> io::Result<()> {
        Ok(())
    }
}

// One line of a length, and an interruption before each read; counts the bytes that were taken.
#[derive(Drop)]
pub(super) struct LongLine {
    pub rest: usize,
    pub given: usize,
    pub interrupted: bool,
}

impl Read for LongLine {
    fn read(&mut self, buf: &mut [u8]) -> io::Result<usize> {
        self.interrupted = !self.interrupted;
        if self.interrupted {
            return Err(io::Error::from(ErrorKind::Interrupted));
        }
        let n = buf.len().min(self.rest);
        buf[..n].fill(b'x');
        self.rest -= n;
        self.given = self.given.wrapping_add(n);
        Ok(n)
    }
}

// Interruptions that come before each byte until there have been enough.
#[derive(Drop)]
pub(super) struct Interruptions {
    pub now: usize,
    pub all: usize,
}

impl Interruptions {
    fn comes(&mut self) -> bool {
        if self.now == 0 || self.all == 0 {
            self.now = 30_000;
            return false;
        }
        self.now -= 1;
        self.all -= 1;
        true
    }
}

// Gives or takes a byte at a time, after its interruptions.
#[derive(Drop)]
pub(super) struct Patient {
    pub rest: &'static [u8],
    pub text: Vec<u8>,
    pub interruptions: Interruptions,
}

impl Read for Patient {
    fn read(&mut self, buf: &mut [u8]) -> io::Result<usize> {
        if self.interruptions.comes() {
            return Err(io::Error::from(ErrorKind::Interrupted));
        }
        let most = buf.len().min(1);
        self.rest.read(&mut buf[..most])
    }
}

impl Write for Patient {
    fn write(&mut self, buf: &[u8]) -> io::Result<usize> {
        if self.interruptions.comes() {
            return Err(io::Error::from(ErrorKind::Interrupted));
        }
        let most = buf.len().min(1);
        self.text.extend_from_slice(&buf[..most])?;
        Ok(most)
    }

    fn flush(&mut self) -> io::Result<()> {
        Ok(())
    }
}

// Takes a page at a time, and is interrupted before each; counts its bytes, and fails if it has no room. Says
// whether it was flushed.
#[derive(Drop)]
pub(super) struct Pages {
    pub taken: usize,
    pub room: usize,
    pub interrupted: bool,
    pub flushed: bool,
}

impl Write for Pages {
    fn write(&mut self, buf: &[u8]) -> io::Result<usize> {
        self.interrupted = !self.interrupted;
        if self.interrupted {
            return Err(io::Error::from(ErrorKind::Interrupted));
        }
        let n = buf.len().min(4_096).min(self.room);
        if n == 0 {
            return Err(io::Error::from(ErrorKind::StorageFull));
        }
        self.taken = self.taken.wrapping_add(n);
        self.room -= n;
        Ok(n)
    }

    fn flush(&mut self) -> io::Result<()> {
        self.flushed = true;
        Ok(())
    }
}

// Takes up to three bytes at a time, and is interrupted before each; fails if it has no room.
#[derive(Drop)]
pub(super) struct Narrow {
    pub text: Vec<u8>,
    pub room: usize,
    pub interrupted: bool,
    pub full: Option<ErrorKind>,
}

impl Narrow {
    pub(super) fn new(alloc: Global, room: usize, full: Option<ErrorKind>) -> Self {
        Narrow {
            text: Vec::new(alloc),
            room,
            interrupted: false,
            full,
        }
    }
}

impl Write for Narrow {
    fn write(&mut self, buf: &[u8]) -> io::Result<usize> {
        self.interrupted = !self.interrupted;
        if self.interrupted {
            return Err(io::Error::from(ErrorKind::Interrupted));
        }
        let n = buf.len().min(3).min(self.room);
        if n == 0 {
            return match self.full {
                Some(kind) => Err(io::Error::from(kind)),
                None => Ok(0),
            };
        }
        self.text.extend_from_slice(&buf[..n])?;
        self.room -= n;
        Ok(n)
    }

    fn flush(&mut self) -> io::Result<()> {
        Ok(())
    }
}

// Takes all, and cannot be flushed.
#[derive(Drop)]
pub(super) struct Unflushed {
    pub text: Vec<u8>,
}

impl Write for Unflushed {
    fn write(&mut self, buf: &[u8]) -> io::Result<usize> {
        self.text.extend_from_slice(buf)?;
        Ok(buf.len())
    }

    fn flush(&mut self) -> io::Result<()> {
        Err(io::Error::from(ErrorKind::BrokenPipe))
    }
}
