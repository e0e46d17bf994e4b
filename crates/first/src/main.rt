//! The smallest program: a list opens into a vector, a value is appended, and the closed list returns it by
//! its token.
#![tactic(auto)]

use anyhow::{Context, Result};
use quiet_core::Quiet;

fn main(rt: HostRuntime) -> Result<()> {
    let opened = Quiet::new(rt.alloc(), 100).open().ok();
    let (vector, mut hand) = opened.context("out of memory")?;
    let placed = vector.push_back(&rt, &mut hand, 7u64);
    let list = Quiet::close(vector, hand);
    let placed = placed?;
    println!(rt; "place {} holds {}", placed.place(), list.recall(&placed))?;
    Ok(())
}
