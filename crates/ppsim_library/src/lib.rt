//! The simulator for hosts that are not Rattle: for C, what calls C, and as a WebAssembly module. A
//! call does what one command of the program does, over bytes that its host passes and in memory
//! that it lends, and gives the memory back or says that it keeps it.
#![tactic(auto)]

mod answer;
mod call;

ghost use Rattle.fixed_arena.specs.Lending.{IsGivenBack};
ghost use Rattle.ppsim_library.specs.Answered.{Answers};

use crate::answer::Answer;
use crate::call::answer_call;
use fixed_arena::{Memory, Slot, arena_in};

/// Does what a command asks for. Its words, with a byte 0 between two of them, are those that the
/// program takes behind its own name, as `state`, `--turns`, `40`; they may ask neither for a file
/// nor for threads. The input is a deck, or the trace for `check`. The text for standard
/// output goes into the room; if there is none, that for standard error, as far as it fits.
#[unsafe(no_mangle)]
pub extern "C" fn ppsim_run(
    memory: &mut Memory,
    words: &[u8],
    input: &[u8],
    room: &mut [u8],
) -> Answer
    ensures done { Answers words.now input.now result room.old room.new }
    ensures memory { IsGivenBack memory.old memory.new }
{
    let slot = Slot::take_from(memory);
    let answer = answer_call(&arena_in(&slot), words, input, room);
    slot.give_back(memory);
    answer
}
