//! Runs scripts of calls on a vector that several actors grow, races of threads that do, and sweeps of
//! sampled schedules.
//!
//! `serve`, `serve_race` and `serve_sweep` are the program: what a command line asks for, over any reader and
//! two writers. Their clauses say the exit status, and what each of the two writers gets, by
//! `specs/Program.antt`. `main` hands them the system's streams. Only a race may wait. The engines are
//! `engine_core`'s, the race is `race_core`'s, the sweep `sweep_core`'s.
//!
//! No clause says which words ask for what, nor what reaches the system's streams: runs of the program show
//! both.
#![tactic(auto)]

mod command_line;
mod commands;
mod error;
mod program;
mod schedule;

use crate::command_line::{Request, read_request};
use crate::program::{serve, serve_race, serve_sweep};
use std::io;
use std::process::ExitCode;

fn main(rt: HostRuntime) -> ExitCode {
    let request = read_request(&rt);
    let mut writer = io::writer(&rt);
    let mut errors = rt.stderr();
    let status = match request {
        Request::Race { workers, each } => serve_race(
            &rt,
            rt.alloc(),
            workers,
            each,
            &mut writer,
            &mut errors,
        ),
        Request::Sweep { seed, count, len } => serve_sweep(
            &rt,
            rt.alloc(),
            seed,
            count,
            len,
            &mut writer,
            &mut errors,
        ),
        request => serve(
            rt.alloc(),
            &request,
            &mut rt.reader(),
            &mut writer,
            &mut errors,
        ),
    };
    ExitCode::from(status)
}
