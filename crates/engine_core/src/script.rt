//! From the bytes of a reader to a script.
ghost use Rattle.std.specs.Prelude.{◌≡◌, ◌≢◌, Ok, Err, IfOk, IfSome, IsErrOf};
ghost use Rattle.script_core.specs.Grammar.{script_of};
ghost use Rattle.engine_core.specs.Reading.{IsPlayable};

use crate::error::RunError;
use crate::input::read_input;
use script_core::laws::long_texts;
use script_core::{Script, ScriptError, read};
use std::alloc::Global;
use std::io::Read;

// The script that the bytes are.
pub(crate) fn parse_script(alloc: Global, bytes: &[u8]) -> Result<Script, RunError>
    ensures read { IfOk result (λ s. script_of bytes.now ≡ Ok s) }
    ensures script { (fault : ScriptError) → result ≡ Err (RunError.Script fault)
        → (fault ≢ ScriptError.NoMemory) × (script_of bytes.now ≡ Err fault) }
    ensures unwritten { IsErrOf result RunError.Write → ⊥ }
    ensures playable { IfOk result (λ s. IsPlayable s) }
{
    match read(alloc, bytes) {
        Ok(script) => Ok(script),
        Err(ScriptError::NoMemory) => Err(RunError::NoMemory),
        Err(fault) => Err(RunError::Script(fault)),
    }
}

// The script that a reader has.
pub(crate) fn read_script<R: Read>(alloc: Global, reader: &mut R) -> Result<Script, RunError>
    ensures read { IfOk result (λ s.
        IfSome (R.remaining reader.old) (λ input. script_of input ≡ Ok s)) }
    ensures script { (fault : ScriptError) → result ≡ Err (RunError.Script fault)
        → (fault ≢ ScriptError.NoMemory)
        × IfSome (R.remaining reader.old) (λ input. script_of input ≡ Err fault) }
    ensures unwritten { IsErrOf result RunError.Write → ⊥ }
    ensures playable { IfOk result (λ s. IsPlayable s) }
{
    let bytes = read_input(alloc, reader)?;
    // For the proof: the bytes that were read decide which script it is.
    long_texts();
    parse_script(alloc, &bytes)
}
