//! A line on the stack.
ghost use Rattle.std.specs.Prelude.{◌≡◌, []};

use std::io::{self, Write};
use std::marker::Model;

// No answer line, no cell and no fault's line is longer.
const MOST: usize = 128;

/// A line of at most 128 bytes, which takes no memory. Contracts see it as the list of its bytes.
#[derive(Drop)]
pub struct Line {
    bytes: [u8; MOST],
    len: usize,
}

impl Model for Line {
    ghost use Rattle.std.specs.Prelude.{ℕ, List, ◌≤◌, take};

    ghost Value = { List ℕ };

    ghost view = { λ l. take l.len l.bytes };

    ghost invariant = { λ l. l.len ≤ 128 };
}

impl Line {
    /// Makes an empty line.
    pub fn new() -> Line
        ensures { result ≡ [] }
    {
        Line {
            bytes: [0; MOST],
            len: 0,
        }
    }

    /// Lends the bytes so far.
    pub fn as_slice(&self) -> &[u8]
        ensures { result.now ≡ self.now }
    {
        &self.bytes[..self.len]
    }
}

impl Write for Line {
    ghost use Rattle.std.specs.Prelude.{Some};

    ghost contents = { λ l. Some l };

    /// Takes one byte at a time, and none if there is no room.
    fn write(&mut self, buf: &[u8]) -> io::Result<usize> {
        match buf {
            [byte, ..] if self.len < MOST => {
                self.bytes[self.len] = *byte;
                self.len += 1;
                Ok(1)
            }
            _ => Ok(0),
        }
    }

    fn flush(&mut self) -> io::Result<()> {
        Ok(())
    }
}
