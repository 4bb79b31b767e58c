//! What a host learns of a call.

ghost use Rattle.std.specs.Prelude.{◌≡◌, codes};
ghost use Rattle.ppsim_library.specs.Answered.{IsFailed, IsFailedFor, IsWithoutMemory, IsWritten, Shows, line_of, status_of};

use pp_sim::TextFault;
use std::alloc::Allocator;

/// The outcome of a call.
#[repr(C)]
#[derive(Clone, Copy)]
pub struct Answer {
    /// The program's exit status: 0, the work is done; 1, the deck or the trace is refused, the
    /// deck can't be dumped as it stands, or `lint` or `test` found something; 2, the words are
    /// refused; 4, memory was refused. Or 5: the text for standard output is longer than the room,
    /// and nothing is written.
    pub status: u32,
    /// The length of the text for standard output in bytes (decimal). It stands at the front of the
    /// room, but at status 5.
    pub output: u64,
    /// The length of the text for standard error in bytes (decimal), as far as there is room: what
    /// went wrong, in words. It stands at the front of the room, as nothing goes to standard output
    /// then.
    pub error: u64,
}

const DONE: u32 = 0;

const BAD_INPUT: u32 = 1;

const BAD_USAGE: u32 = 2;

const NO_MEMORY: u32 = 4;

const TOO_LONG: u32 = 5;

/// The answer to a call whose work had this outcome and wrote this text.
pub(crate) fn answer_of<A: Allocator>(
    alloc: A,
    outcome: Result<(), TextFault>,
    text: &[u8],
    room: &mut [u8],
) -> Answer
    ensures { Shows outcome text.now result room.old room.new }
{
    match outcome {
        Ok(()) => written(DONE, text, room),
        Err(TextFault::Findings) => written(BAD_INPUT, text, room),
        Err(TextFault::Memory) => without_memory(room),
        Err(fault) => failed_for(alloc, &fault, room),
    }
}

/// The answer to words that ask for help or the version, which is this text.
pub(crate) fn helped(text: &[u8], room: &mut [u8]) -> Answer
    ensures { IsWritten 0 text.now result room.old room.new }
{
    written(DONE, text, room)
}

/// The answer to words that are refused, as this says.
pub(crate) fn refused(said: &[u8], room: &mut [u8]) -> Answer
    ensures { IsFailed 2 said.now result room.old room.new }
{
    failed(BAD_USAGE, said, room)
}

/// The answer to words that are not text.
pub(crate) fn not_text(room: &mut [u8]) -> Answer
    ensures { IsFailed 2 (line_of (codes "a word is not UTF-8")) result room.old room.new }
{
    refused(b"ppsim: a word is not UTF-8\n", room)
}

/// The answer to words that name a file.
pub(crate) fn without_files(room: &mut [u8]) -> Answer
    ensures { IsFailed 2 (line_of (codes "no file is read here: pass its bytes"))
        result room.old room.new }
{
    refused(b"ppsim: no file is read here: pass its bytes\n", room)
}

/// The answer to words that ask for threads.
pub(crate) fn without_threads(room: &mut [u8]) -> Answer
    ensures { IsFailed 2 (line_of (codes "there are no threads here")) result room.old room.new }
{
    refused(b"ppsim: there are no threads here\n", room)
}

/// The answer if memory for the words was refused.
pub(crate) fn without_memory(room: &mut [u8]) -> Answer
    ensures { IsWithoutMemory result room.old room.new }
{
    failed(NO_MEMORY, b"ppsim: out of memory\n", room)
}

/// Puts a text into the room, if it fits.
fn written(status: u32, text: &[u8], room: &mut [u8]) -> Answer
    ensures { IsWritten status text.now result room.old room.new }
{
    let output = text.len() as u64;
    if room.len() < text.len() {
        return Answer {
            status: TOO_LONG,
            output,
            error: 0,
        };
    }
    room[..text.len()].copy_from_slice(text);
    Answer {
        status,
        output,
        error: 0,
    }
}

/// Says in the room which fault it was, as the program does on standard error; nothing, if memory
/// for the line is refused.
fn failed_for<A: Allocator>(alloc: A, fault: &TextFault, room: &mut [u8]) -> Answer
    ensures { IsFailedFor fault.now result room.old room.new }
{
    match format!(in alloc; "ppsim: {fault}\n") {
        Ok(line) => failed(status_of(fault), line.as_bytes(), room),
        Err(_) => failed(status_of(fault), b"", room),
    }
}

/// Says in the room why a call failed, as far as it fits.
fn failed(status: u32, said: &[u8], room: &mut [u8]) -> Answer
    ensures { IsFailed status said.now result room.old room.new }
{
    let count = said.len().min(room.len());
    room[..count].copy_from_slice(&said[..count]);
    Answer {
        status,
        output: 0,
        error: count as u64,
    }
}

fn status_of(fault: &TextFault) -> u32
    ensures { result ≡ status_of fault.now }
{
    match fault {
        TextFault::Deck(_)
        | TextFault::NotBetweenPrograms(_)
        | TextFault::Findings
        | TextFault::Trace(_) => BAD_INPUT,
        // A reader of bytes does not fail, and a writer of bytes only for lack of memory.
        TextFault::Memory | TextFault::Read | TextFault::Write => NO_MEMORY,
    }
}
