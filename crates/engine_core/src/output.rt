//! Writing a text.
ghost use Rattle.std.specs.Prelude.{OnOk, OnErr};
ghost use Rattle.std.specs.Io.KnownBytes.{Appends};
ghost use Rattle.script_core.specs.Text.{AppendsPrefix};

use script_core::{WriteFault, write_bytes};
use std::io::Write;

/// Writes the whole text, and flushes the writer.
pub fn write_output<W: Write>(writer: &mut W, text: &[u8]) -> Result<(), WriteFault>
    ensures ok { OnOk result
        (Appends (W.contents writer.old) (W.contents writer.new) text.now) }
    ensures fault { OnErr result
        (AppendsPrefix (W.contents writer.old) (W.contents writer.new) text.now) }
{
    write_bytes(writer, text)?;
    writer.flush()?;
    Ok(())
}
