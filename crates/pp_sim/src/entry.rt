//! What the program does from its words to its exit status. It stands in a library, so that several
//! programs with other words, decks and statuses can be run on it.

use crate::program::{BAD_USAGE, NO_MEMORY};
use crate::run_program;
use std::alloc::Global;
use std::env::Env;
use std::fs::Files;
use std::io::{ErrorKind, Read, Write};
use std::process::ExitCode;
use std::sync::Wait;
use std::thread::Threads;
use std::{env, io};

/// Does what the words of the command line ask for, which the environment has, over these three
/// streams, and answers the status to exit with: 0 done, 1 deck or trace refused, no dump, or
/// something found by `lint` or `test`, 2 command line refused, 3 a device failed, 4 out of memory.
pub fn run_main<
    R: Alloc<A = Global> + Files + Threads + Wait + Sync,
    W: Env,
    I: Read,
    O: Write,
    E: Write,
>(rt: &R, environment: &W, input: &mut I, output: &mut O, error: &mut E) -> ExitCode {
    let alloc = rt.alloc();
    let arguments = match read_arguments(environment, alloc) {
        Ok(arguments) => arguments,
        Err(fault) => return without_words(fault.kind(), error),
    };
    let mut words = Vec::new(alloc);
    for argument in &arguments {
        if words.push(argument.as_str()).is_err() {
            return without_words(ErrorKind::OutOfMemory, error);
        }
    }
    ExitCode::from(run_program(rt, alloc, words.as_slice(), input, output, error))
}

fn without_words<E: Write>(kind: ErrorKind, error: &mut E) -> ExitCode {
    if kind == ErrorKind::OutOfMemory {
        let _ = writeln!(error, "ppsim: out of memory");
        return ExitCode::from(NO_MEMORY);
    }
    let _ = writeln!(error, "ppsim: a word is not UTF-8");
    ExitCode::from(BAD_USAGE)
}

/// The program's words, its name first.
fn read_arguments<W: Env>(environment: &W, alloc: Global) -> io::Result<Vec<String>> {
    let mut arguments = Vec::new(alloc);
    for argument in env::args(&(environment, alloc))? {
        arguments.push(argument)?;
    }
    Ok(arguments)
}
