ghost use Rattle.pp_sim.specs.CheckText.{AnswersTrace};

use crate::TextFault;
use crate::streams::read_all;
use pp_channel::CHANNELS;
use pp_check::{check_trace, write_verdict};
use std::alloc::Allocator;
use std::io::{Read, Write};

/// Reads a channel trace to its end, and writes what is counted in it, if it is lawful. The
/// channels that are flagged, in the order of their places, were open before it.
pub fn check_text<A: Allocator, R: Read, W: Write>(
    alloc: A,
    opened: &[bool; CHANNELS],
    reader: &mut R,
    writer: &mut W,
) -> Result<(), TextFault>
    ensures { AnswersTrace opened.now result
        (R.remaining reader.old) (R.remaining reader.new)
        (W.contents writer.old) (W.contents writer.new) }
{
    let trace = read_all(alloc, reader)?;
    match check_trace(trace.as_slice(), opened) {
        Ok(verdict) => Ok(write_verdict(writer, &verdict)?),
        Err(fault) => Err(TextFault::Trace(fault)),
    }
}
