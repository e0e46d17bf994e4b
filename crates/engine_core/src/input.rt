//! Reading a script's bytes.
ghost use Rattle.std.specs.Prelude.{◌≡◌, ◌≤◌, ◌<◌, ◌⊎◌, ◌++◌, take, length, vec_len, IfOk, IfErr, IfSome, IsErrOf};
ghost use Rattle.std.specs.Io.KnownBytes.{Consumes, Keeps, IsAtEnd};

use crate::error::RunError;
use std::alloc::{AllocError, Global};
use std::io::{ErrorKind, Read};

// Why one read gave nothing.
#[derive(Clone, Copy, PartialEq, Eq)]
enum InputStop {
    Interrupted,
    Failed,
    NoMemory,
}

// One byte more than a script may have: enough to see that it is too long.
const MOST_READ: usize = 1_048_577;

// A read gives up at this number of interruptions.
const MOST_INTERRUPTIONS: usize = 1_048_576;

// How much is asked for at once.
const CHUNK: usize = 65_536;

// One read, whose bytes are appended.
fn read_once<R: Read>(
    reader: &mut R,
    chunk: &mut [u8],
    bytes: &mut Vec<u8>,
) -> Result<usize, InputStop>
    ensures bound { IfOk result (λ n. n ≤ length chunk.old) }
    ensures appended { IfOk result (λ n. bytes.new.items ≡ bytes.old.items ++ take n chunk.new) }
    ensures consumed { IfOk result (λ n.
        Consumes (R.remaining reader.old) (R.remaining reader.new) (take n chunk.new)) }
    ensures end { IfOk result (λ n.
        n ≡ 0 → 0 < length chunk.old → IsAtEnd (R.remaining reader.new)) }
    ensures interrupted { IsErrOf result InputStop.Interrupted
        → Keeps (R.remaining reader.old) (R.remaining reader.new) }
    ensures nothing { IsErrOf result InputStop.Interrupted → bytes.new.items ≡ bytes.old.items }
{
    match reader.read(chunk) {
        Ok(n) => match bytes.extend_from_slice(&chunk[..n]) {
            Ok(()) => Ok(n),
            Err(_) => Err(InputStop::NoMemory),
        },
        Err(error) if error.kind() == ErrorKind::Interrupted => Err(InputStop::Interrupted),
        Err(_) => Err(InputStop::Failed),
    }
}

fn read_up_to<R: Read>(
    alloc: Global,
    reader: &mut R,
    chunk: &mut [u8],
    most: usize,
) -> Result<Vec<u8>, RunError>
    requires { 0 < length chunk.old }
    ensures bytes { IfOk result (λ bytes.
        IfSome (R.remaining reader.old) (λ input. bytes.items ≡ take most input)) }
    ensures unread { IfErr result (λ e. (e ≡ RunError.NoMemory) ⊎ (e ≡ RunError.Read)) }
{
    let mut bytes = Vec::new(alloc);
    let mut patience = MOST_INTERRUPTIONS;
    while bytes.len() < most {
        let room = chunk.len().min(most - bytes.len());
        match read_once(reader, &mut chunk[..room], &mut bytes) {
            Ok(0) => return Ok(bytes),
            Ok(_) => {}
            Err(InputStop::Interrupted) if patience > 1 => patience -= 1,
            Err(InputStop::Interrupted | InputStop::Failed) => return Err(RunError::Read),
            Err(InputStop::NoMemory) => return Err(RunError::NoMemory),
        }
    }
    Ok(bytes)
}

fn new_chunk(alloc: Global) -> Result<Vec<u8>, AllocError>
    ensures { IfOk result (λ chunk. 0 < vec_len chunk) }
{
    vec![in alloc; 0; CHUNK]
}

/// Reads the bytes that the reader has, at most 1,048,577 of them.
pub fn read_input<R: Read>(alloc: Global, reader: &mut R) -> Result<Vec<u8>, RunError>
    ensures bytes { IfOk result (λ bytes.
        IfSome (R.remaining reader.old) (λ input. bytes.items ≡ take 1048577 input)) }
    ensures unread { IfErr result (λ e. (e ≡ RunError.NoMemory) ⊎ (e ≡ RunError.Read)) }
{
    let mut chunk = new_chunk(alloc)?;
    read_up_to(alloc, reader, &mut chunk, MOST_READ)
}
