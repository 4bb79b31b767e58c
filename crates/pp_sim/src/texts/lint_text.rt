ghost use Rattle.pp_sim.specs.LintAnswer.{AnswersLint};

use crate::TextFault;
use crate::streams::read_front;
use pp_lint::write_lint;
use pp_machine::Profile;
use std::alloc::Allocator;
use std::io::{Read, Write};

/// Reads a deck for a machine of this profile, and writes what is found in it: `Findings` if any.
pub fn lint_text<A: Allocator + Copy, R: Read, W: Write>(
    alloc: A,
    profile: Profile,
    reader: &mut R,
    writer: &mut W,
) -> Result<(), TextFault>
    ensures { AnswersLint profile result
        (R.remaining reader.old) (R.remaining reader.new)
        (W.contents writer.old) (W.contents writer.new) }
{
    let front = read_front(alloc, reader)?;
    match write_lint(alloc, writer, profile, front.as_slice())? {
        true => Err(TextFault::Findings),
        false => Ok(()),
    }
}
