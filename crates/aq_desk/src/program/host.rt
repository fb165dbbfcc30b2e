//! The words of the program, and the host's streams and network.

use crate::end_without_memory;
use crate::program::obeying::obey;
use aq_base::Memory;
use aq_keeper::Keeper;
use aq_outside::host::{Reading, TcpDoor, Writing};
use std::io::ErrorKind;
use std::process::ExitCode;
use std::{env, io};

/// Obeys the words of the program over a keeper, with the host's streams and network. The keeper is closed then.
pub fn run_over<K: Keeper + Drop>(rt: HostRuntime, mut keeper: K) -> ExitCode {
    let words = words_of(&rt);
    let mut input = Reading::new(rt.reader());
    let mut output = Writing::new(io::writer(&rt));
    let mut errors = Writing::new(rt.stderr());
    let mut door = TcpDoor::new(rt);
    obey(
        rt.alloc(),
        words,
        &mut keeper,
        &mut door,
        &mut input,
        &mut output,
        &mut errors,
    )
}

/// Ends a program that had no memory for its keeper.
pub fn without_memory(rt: HostRuntime) -> ExitCode {
    let mut errors = Writing::new(rt.stderr());
    ExitCode::from(end_without_memory(&mut errors))
}

/// The words after the program's name: none, which is no command, if one of them is no text.
fn words_of(rt: &HostRuntime) -> Result<Vec<String>, Memory> {
    match env::args(rt) {
        Ok(words) => Ok(words.skip(1).collect(rt.alloc())?),
        Err(error) if error.kind() == ErrorKind::OutOfMemory => Err(Memory),
        Err(_) => Ok(Vec::new(rt.alloc())),
    }
}
