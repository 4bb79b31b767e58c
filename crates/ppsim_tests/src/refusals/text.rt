//! The text of a run by threads of which a request is refused.

use crate::sweep::runs::ending;
use pp_machine::Profile;
use std::alloc::Global;
use std::fs::Files;
use std::sync::Wait;
use std::thread::Threads;
use test_bench::{BLOCK, Rationed};

/// What is said of a run that ended with this status and text.
fn answer(status: u8, text: &str) -> Option<bool> {
    if status == 4 && text.is_empty() || status == 0 && text.contains(" MEMORY\n") {
        None
    } else {
        Some(status == 0 && text.contains("CH05 000000 PP00 ACN\n"))
    }
}

/// Nothing if a run ends for want of memory as it should, in a worker, which the text says, or as a
/// whole, and then without a text; else whether all of the text comes.
pub(crate) fn with_little<R: AllocGlobal + Files + Threads + Wait + Sync>(
    rt: &R,
    heap: &Rationed<Global>,
    profile: Profile,
) -> Option<bool> {
    let processors = match profile {
        Profile::Ten => "10",
        Profile::Twenty => "20",
    };
    let words = [
        "ppsim",
        "threads",
        "--steps",
        "100",
        "--patience",
        "1000",
        "--processors",
        processors,
    ];
    let ended = ending(rt, heap, (&words, BLOCK));
    let text = str::from_utf8(ended.output.taken()).unwrap_or("");
    answer(ended.status, text)
}
