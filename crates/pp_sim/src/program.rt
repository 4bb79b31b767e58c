//! The program, over any reader and writers.

ghost use Rattle.std.specs.Prelude.{◌≡◌, map};
ghost use Rattle.pp_runner.specs.Report.{ReportFitsInMemory};
ghost use Rattle.pp_sim.specs.Program.{IsDone, IsDoneOnFile, IsPrinted, IsRun, IsReported, status_of};

use crate::{TextFault, threads_text, work_text};
use pp_command::{Asked, LineFault, Work, read_words};
use pp_text::write_whole;
use std::alloc::{Allocator, Global};
use std::fs::{self, Files};
use std::io::{Read, Write};
use std::sync::Wait;
use std::thread::Threads;

/// It is done, or help was asked for.
const DONE: u8 = 0;
/// The deck was refused, or can't be dumped as it stands, or something is found in it, or its run
/// is not as it expects; or a trace is not lawful.
const BAD_INPUT: u8 = 1;
/// The command line was refused.
pub(crate) const BAD_USAGE: u8 = 2;
/// The input or the output failed.
const IO_FAULT: u8 = 3;
/// Memory was refused.
pub(crate) const NO_MEMORY: u8 = 4;

/// Does what the words ask for, the program's name first, and answers the status to exit with. The
/// words are read first: if they are refused, or name a file to read, nothing is read from `input`.
/// A fault in writing to `error` is not reported.
pub fn run_program<
    'a,
    T: Alloc<A = Global> + Files + Threads + Wait + Sync,
    I: Read,
    A: Allocator + Copy + Send + Sync,
    O: Write,
    E: Write,
>(rt: &T, alloc: A, words: &'a [&'a str], input: &mut I, output: &mut O, error: &mut E) -> u8
    requires { ReportFitsInMemory A.row A.Allocator }
    ensures { IsRun A (map (λ s. s.now) words.entry.now) result (I.remaining input.old)
        (I.remaining input.new)
        (O.contents output.old) (O.contents output.new) }
{
    let (asked, file) = match read_words(rt.alloc(), words) {
        Ok(read) => read,
        Err(fault) => return tell_line_fault(rt.alloc(), &fault, output, error),
    };
    match file {
        None => tell_answer(do_work(rt, &asked, alloc, input, output), error),
        Some(path) => work_on_file(rt, &asked, alloc, path, output, error),
    }
}

/// Does what the words ask for over the bytes of a file.
fn work_on_file<
    T: Files + Threads + Wait + Sync,
    A: Allocator + Copy + Send + Sync,
    O: Write,
    E: Write,
>(rt: &T, asked: &Asked<Global>, alloc: A, path: &str, output: &mut O, error: &mut E) -> u8
    requires { ReportFitsInMemory A.row A.Allocator }
    ensures { IsDoneOnFile A asked.now.work asked.now.first.items asked.now.until result
        (O.contents output.old) (O.contents output.new) }
{
    let Ok(mut file) = fs::open(rt, path) else {
        return tell_unread(path, error);
    };
    match do_work(rt, asked, alloc, &mut file, output) {
        Err(TextFault::Read) => tell_unread(path, error),
        answer => tell_answer(answer, error),
    }
}

/// The status if a file can't be opened or read, which is reported.
fn tell_unread<E: Write>(path: &str, error: &mut E) -> u8
    ensures { result ≡ 3 }
{
    let _ = writeln!(error, "ppsim: {path}: cannot be read");
    IO_FAULT
}

/// Does what the words ask for.
fn do_work<T: Threads + Wait + Sync, I: Read, A: Allocator + Copy + Send + Sync, O: Write>(
    rt: &T,
    asked: &Asked<Global>,
    alloc: A,
    input: &mut I,
    output: &mut O,
) -> Result<(), TextFault>
    requires { ReportFitsInMemory A.row A.Allocator }
    ensures { IsDone A asked.now.work asked.now.first.items asked.now.until result
        (I.remaining input.old) (I.remaining input.new)
        (O.contents output.old) (O.contents output.new) }
{
    if let Work::Threads { profile, limits } = &asked.work {
        return threads_text(rt, alloc, *profile, input, output, *limits);
    }
    work_text(alloc, asked, input, output)
}

fn tell_line_fault<O: Write, E: Write>(
    alloc: Global,
    fault: &LineFault,
    output: &mut O,
    error: &mut E,
) -> u8
    ensures { IsReported fault.now result (O.contents output.old) (O.contents output.new) }
{
    let LineFault::Refused(refusal) = fault else {
        let _ = writeln!(error, "ppsim: {fault}");
        return match fault {
            LineFault::Memory => NO_MEMORY,
            _ => BAD_USAGE,
        };
    };
    // clap's text as it is: help on the output, all else on the error.
    if refusal.use_stderr() {
        let _ = write!(error, "{refusal}");
        return BAD_USAGE;
    }
    match format!(in alloc; "{refusal}") {
        Ok(help) => show_help(help.as_bytes(), output, error),
        Err(_) => tell_answer(Err(TextFault::Memory), error),
    }
}

/// Prints help that was asked for.
fn show_help<O: Write, E: Write>(help: &[u8], output: &mut O, error: &mut E) -> u8
    ensures { IsPrinted help.now result (O.contents output.old) (O.contents output.new) }
{
    match write_whole(output, help) {
        Ok(()) => DONE,
        Err(_) => tell_answer(Err(TextFault::Write), error),
    }
}

/// The status of what was done, or failed, which is reported on `error`.
fn tell_answer<E: Write>(answer: Result<(), TextFault>, error: &mut E) -> u8
    ensures { result ≡ status_of answer }
{
    let Err(fault) = answer else {
        return DONE;
    };
    // What is found is said on the output.
    if !matches!(fault, TextFault::Findings) {
        let _ = writeln!(error, "ppsim: {fault}");
    }
    match fault {
        TextFault::Deck(_)
        | TextFault::NotBetweenPrograms(_)
        | TextFault::Findings
        | TextFault::Trace(_) => BAD_INPUT,
        TextFault::Read | TextFault::Write => IO_FAULT,
        TextFault::Memory => NO_MEMORY,
    }
}
