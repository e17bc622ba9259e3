//! `x25_refusals`: scripts that are played at a world, by a player that goes on where a call is refused memory: the
//! call has to leave all as it was, and is made again.
//!
//! It prints what each script shows, and a line `CALL refused` where a call was. `tests/refused.py` runs it with each
//! allocation refused in turn: but for such lines, it has to print the same. Exit status: 1 where a call that was
//! refused changed something, or the player can't go on.
#![tactic(auto)]

mod lines;
mod player;
mod scripts;
mod worlds;

use lines::Lines;
use player::plays;
use scripts::{SCRIPTS, Script};
use std::alloc::Global;
use std::io::{self, Write};
use std::process::ExitCode;
use worlds::{Trouble, Worlds};

/// What a script shows.
fn shown_by(alloc: Global, script: &Script) -> Result<Lines, Trouble> {
    let mut shown = Lines::new(alloc)?;
    shown.push(b"-- ")?;
    shown.push(script.name.as_bytes())?;
    shown.push(b"\n")?;
    let mut world = Worlds::new(alloc, script, &mut shown)?;
    plays(&mut world, script.acts, &mut shown)?;
    Ok(shown)
}

fn play_all<W: Write>(alloc: Global, writer: &mut W) -> Result<(), Trouble> {
    for script in SCRIPTS.as_slice() {
        let shown = shown_by(alloc, script)?;
        if writer.write_all(shown.as_slice()).is_err() {
            return Err(Trouble::Write);
        }
    }
    Ok(())
}

fn main(rt: HostRuntime) -> ExitCode {
    let mut writer = io::writer(&rt);
    match play_all(rt.alloc(), &mut writer) {
        Ok(()) => ExitCode::SUCCESS,
        Err(trouble) => {
            eprintln!(rt; "{trouble}").ok();
            ExitCode::FAILURE
        }
    }
}
