//! Scripts and answer lines as text.
//!
//! - `read` reads a script: a limit, a layout, the actors with their programs, and the items of a schedule.
//!   Contracts see what it returns as `script_of` of `specs/Grammar.antt`: the script, or the first fault
//!   with its line.
//! - `specs/Spelling.antt` says the same in the grammar's own words: `text_of` is a script's spelling, with
//!   or without a layout line, and a text is read exactly if it is the spelling of a script (`IsScript`).
//! - `write_reply` and `write_cells` write the answer lines and the last line, as `specs/Text.antt` has them.
//!   All of them write through `write_bytes`. `Line` holds a line without allocating.
//!
//! A caller can prove which script a text is, which fault it has on which line, and every byte that is
//! written. `read` may be out of memory for any text. Nothing here knows what a call does. No proof is by
//! hand over memory.
#![tactic(auto)]

mod actor;
mod bytes;
mod command;
mod cut;
mod error;
mod items;
pub mod laws;
mod line;
mod lines;
mod number;
mod reading;
mod script;
mod write;

pub use bytes::{WriteFault, write_bytes};
pub use error::ScriptError;
pub use line::Line;
pub use reading::read;
pub use script::Script;
pub use write::{command_word, write_cells, write_reply, write_work};
