ghost use Rattle.std.specs.Prelude.{◌≡◌, ◌++◌, ◌∷◌, [], OnOk};

use crate::AskingStep;
use pp_channel::Memory;
use pp_machine::{PROCESSORS, PpNo, Trace};
use std::alloc::Allocator;

/// One finding: a step that races with another, or what leaves it open how a run ends.
#[derive(Clone, Copy)]
pub enum Finding {
    /// The step would have done otherwise before this event, which was made before it.
    Before(AskingStep, Trace),
    /// The look would have done otherwise after this event, which was made after it.
    After(AskingStep, Trace),
    /// The processor goes on after the last step.
    GoingOn(PpNo),
    /// The processor is held after the last step, by the step that it is to make, and would have
    /// gone on before this event.
    HeldBefore(AskingStep, Trace),
    /// The central word of this address was written by one processor and used by another. The flags
    /// are those of all processors that wrote and used it, in the order of the barrel.
    Shared(u32, [bool; PROCESSORS], [bool; PROCESSORS]),
}

/// Keeps one more finding.
pub(crate) fn keep<A: Allocator>(
    findings: &mut Vec<Finding, A>,
    finding: Finding,
) -> Result<(), Memory>
    ensures { OnOk result (findings.new.items ≡ findings.old.items ++ finding ∷ []) }
{
    Ok(findings.push(finding)?)
}
