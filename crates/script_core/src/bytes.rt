//! Writing bytes to a writer that may fail.
ghost use Rattle.std.specs.Prelude.{OnOk, OnErr};
ghost use Rattle.std.specs.Io.KnownBytes.{Appends};
ghost use Rattle.script_core.specs.Text.{AppendsPrefix};

use std::error::Error;
use std::fmt;
use std::io::{self, ErrorKind, Write};

/// A writer failed, for this reason. A `Vec` fails only if it is out of memory.
#[derive(Clone, Copy, Debug, PartialEq, Eq)]
pub struct WriteFault {
    pub kind: ErrorKind,
}

impl fmt::Display for WriteFault {
    fn fmt<W: fmt::Write>(&self, f: &mut fmt::Formatter<W>) -> fmt::Result {
        write!(f, "write fault: {}", self.kind)
    }
}

impl Error for WriteFault {}

impl From<io::Error> for WriteFault {
    fn from(error: io::Error) -> WriteFault {
        WriteFault { kind: error.kind() }
    }
}

// A write gives up at this number of interruptions.
const MOST_INTERRUPTIONS: usize = 1_048_576;

/// Writes all the bytes; it does not flush.
///
/// A write that takes no byte is a fault, and so is the 1,048,576th interruption of one call.
pub fn write_bytes<W: Write>(writer: &mut W, bytes: &[u8]) -> Result<(), WriteFault>
    ensures ok { OnOk result (Appends (W.contents writer.old) (W.contents writer.new) bytes.now) }
    ensures fault { OnErr result
        (AppendsPrefix (W.contents writer.old) (W.contents writer.new) bytes.now) }
{
    let mut at = 0;
    let mut patience = MOST_INTERRUPTIONS;
    while at < bytes.len() {
        match writer.write(&bytes[at..]) {
            Ok(0) => return Err(WriteFault::from(io::Error::from(ErrorKind::WriteZero))),
            Ok(n) => at += n,
            Err(error) if error.kind() == ErrorKind::Interrupted && patience > 1 => patience -= 1,
            Err(error) => return Err(WriteFault::from(error)),
        }
    }
    Ok(())
}
