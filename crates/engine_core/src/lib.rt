//! From the bytes of a script to the bytes of its answer lines.
//!
//! `run_calls` reads a script from any reader, plays each item as one whole call, and writes the answer lines
//! and the cells to any writer. `run_steps` does the same with each item as one atomic step, and
//! `run_steps_counted` also writes what each call took. `run_script` plays by any engine. Those that trace
//! write first what each step found or did: `trace_text` of `specs/Trace.antt`.
//!
//! Contracts see a reader as the bytes that it has left, and a writer as the bytes that it holds, if these
//! are known. A caller can prove what was written, or why it was not, over whole bytes: `IsTextOf` of
//! `specs/Output.antt`, and the lines of `specs/RunError.antt`. No clause says when memory is refused, nor
//! why a reader fails.
#![tactic(auto)]

mod columns;
mod engine;
mod error;
mod input;
mod output;
mod script;
mod text;
mod trace;

pub use engine::{Engine, run_calls, run_script, run_steps, run_steps_counted};
pub use error::RunError;
pub use output::write_output;
