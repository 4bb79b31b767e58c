//! Calls: their words, and their work over bytes in memory.

ghost use Rattle.std.specs.Prelude.{◌≡◌, IfOk, map};
ghost use Rattle.ppsim_library.specs.Answered.{Answers, IsAnswered, IsDeclinedFor, parts_of, words_of};

use crate::answer::{
    Answer, answer_of, helped, not_text, refused, without_files, without_memory, without_threads,
};
use pp_call::{CallFault, read_call};
use pp_command::Asked;
use pp_sim::{Work, work_text};
use std::alloc::{AllocError, Allocator};
use std::str;

/// Answers a call: does what its words ask for, help included, or says why they are refused.
pub(crate) fn answer_call<A: Allocator + Copy>(
    alloc: A,
    words: &[u8],
    input: &[u8],
    room: &mut [u8],
) -> Answer
    ensures { Answers words.now input.now result room.old room.new }
{
    let Ok(text) = str::from_utf8(words) else {
        return not_text(room);
    };
    let Ok(listed) = words_of(alloc, text) else {
        return without_memory(room);
    };
    match read_call(alloc, listed.as_slice()) {
        Ok((_, Some(_))) => without_files(room),
        Ok((asked, None)) => answer_work(alloc, &asked, input, room),
        Err(refusal) => decline(refusal.fault, refusal.text.as_bytes(), room),
    }
}

/// The answer to words that ask for no work, for this reason, which this text says.
fn decline(fault: CallFault, text: &[u8], room: &mut [u8]) -> Answer
    ensures { IsDeclinedFor fault result room.old room.new }
{
    match fault {
        CallFault::Memory => without_memory(room),
        CallFault::Help => helped(text, room),
        CallFault::Refused | CallFault::Number | CallFault::Picture | CallFault::Forms => {
            refused(text, room)
        }
    }
}

/// The words of a text, between bytes 0; none, if it is empty.
fn words_of<A: Allocator>(alloc: A, text: &str) -> Result<Vec<&str, A>, AllocError>
    ensures { IfOk result (λ words. map (λ word. word.now) words.items ≡ words_of text.now) }
{
    if text.is_empty() {
        return Ok(Vec::new(alloc));
    }
    parts_of(alloc, text)
}

/// What stands in a text between bytes 0.
fn parts_of<A: Allocator>(alloc: A, text: &str) -> Result<Vec<&str, A>, AllocError>
    ensures { IfOk result (λ parts. map (λ part. part.now) parts.items ≡ parts_of text.now) }
{
    let mut words = Vec::new(alloc);
    let mut rest = text;
    while let Some((word, others)) = rest.split_once('\0') {
        words.push(word)?;
        rest = others;
    }
    words.push(rest)?;
    Ok(words)
}

/// Does what is asked for over the input, if it needs no threads.
#[tactic(auto, using(crate::proofs::WorkLemmas::any_allocator))]
fn answer_work<A: Allocator + Copy>(
    alloc: A,
    asked: &Asked<A>,
    input: &[u8],
    room: &mut [u8],
) -> Answer
    ensures { IsAnswered asked.now.work asked.now.first.items asked.now.until input.now
        result room.old room.new }
{
    if let Work::Threads { .. } = asked.work {
        return without_threads(room);
    }
    let mut reader = input;
    let mut text = Vec::new(alloc);
    let outcome = work_text(alloc, asked, &mut reader, &mut text);
    answer_of(alloc, outcome, text.as_slice(), room)
}
