ghost use Rattle.pp_sim.specs.Program.{IsDone, NeedsNoThreads};

use crate::texts::check_text::check_text;
use crate::texts::deck_text::deck_text;
use crate::texts::lint_text::lint_text;
use crate::texts::test_text::test_text;
use crate::{Schedule, TextFault};
use pp_command::{Asked, Work};
use std::alloc::Allocator;
use std::io::{Read, Write};

/// Does a work that needs no threads: reads a deck or a trace, and writes the text asked for.
pub fn work_text<A: Allocator + Copy, B: Allocator, R: Read, W: Write>(
    alloc: A,
    asked: &Asked<B>,
    reader: &mut R,
    writer: &mut W,
) -> Result<(), TextFault>
    requires { NeedsNoThreads asked.now.work }
    ensures { IsDone A asked.now.work asked.now.first.items asked.now.until result
        (R.remaining reader.old) (R.remaining reader.new)
        (W.contents writer.old) (W.contents writer.new) }
{
    let schedule = Schedule {
        first: asked.first.as_slice(),
        until: asked.until,
    };
    match &asked.work {
        Work::Deck { profile, text } => deck_text(alloc, *profile, &schedule, reader, writer, text),
        Work::Lint { profile } => lint_text(alloc, *profile, reader, writer),
        Work::Test { profile, tested } => {
            test_text(alloc, *profile, &schedule, reader, writer, *tested)
        }
        Work::Threads { .. } => unreachable!(),
        Work::Check { opened } => check_text(alloc, opened, reader, writer),
    }
}
