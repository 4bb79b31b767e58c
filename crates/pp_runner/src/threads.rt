ghost use Rattle.std.specs.Prelude.{◌≡◌, ◌+◌, [], All, vec_len, IfOk};
ghost use Rattle.pp_line.specs.LineState.{IsSplitFrom};
ghost use Rattle.pp_numbers.specs.Profile.{processors_in};
ghost use Rattle.pp_runner.specs.{Crew.HasOpened, Report.IsReportOf};

use crate::crew::run_crew;
use crate::opening::opening_line;
use crate::run_context::RunContext;
use crate::spinning::Spinning;
use crate::worker::workers;
use crate::{Gate, Report, RunFault};
use pp_channel::Memory;
use pp_line::{Closed, Line};
use pp_machine::Machine;
use pp_numbers::Limits;
use std::alloc::Allocator;
use std::snapshot::Snapshot;
use std::sync::Wait;
use std::thread::Threads;

/// The line that opened the channels of the machine, beside the words of its central memory, and a
/// line for each processor, split from it. The first belongs to no processor, and keeps a share.
fn open_family<A: Allocator + Copy>(
    alloc: A,
    machine: &Machine<A>,
    room: u32,
) -> Result<(Line<A>, Vec<Line<A>, A>), Memory>
    ensures each_processor { IfOk result (λ opened.
        vec_len opened.1 ≡ processors_in machine.now.profile) }
    ensures fresh { IfOk result (λ opened. All (IsSplitFrom opened.0 room) opened.1.items) }
    ensures first { IfOk result (λ opened.
        HasOpened machine.now (processors_in machine.now.profile + 1) 1 opened.0) }
{
    let processors = machine.profile().processors();
    let mut first = opening_line(alloc, machine, processors as u32 + 1)?;
    let mut lines = Vec::with_capacity(alloc, processors)?;
    for count in 0..processors {
        lines.push_reserved(first.split(room)?);
    }
    Ok((first, lines))
}

/// Runs the processors of a machine at once, each on a copy of its own in a thread of its own, on
/// new channels and a copy of central memory; one at rest needs no thread. The machine stays as it
/// is. No step of it has made a channel event.
///
/// A worker runs until its processor is at rest, until it has made the steps of the limit, or until
/// it is held at one step as often in a row as its patience allows. `Memory` is returned if an
/// allocation outside the workers' steps was refused, or the system could not start a worker.
pub fn run_threads<R: Threads + Wait + Sync, G: Gate + Sync, A: Allocator + Copy + Send + Sync>(
    rt: &R,
    alloc: A,
    machine: &Machine<A>,
    limits: Limits,
    gate: &G,
) -> Result<Report<A>, RunFault>
    requires { machine.now.trace ≡ [] }
    ensures { IfOk result (λ report. IsReportOf limits machine.now report) }
{
    machine.is_sound();
    // Two entries an answer at most, and a look at which the worker gives up.
    let (first, lines) = open_family(alloc, machine, 2 * limits.steps() + 1)?;
    let run = RunContext {
        alloc,
        size: machine.central().size(),
        limits,
        family: Snapshot::of(&first),
        spinning: Spinning::of_run(rt),
    };
    let crew = run_crew(rt, &run, gate, machine, lines)?;
    // The events of the line that opened channels stand in no worker's log.
    let Closed { logs, channels } = first.close_with(crew)?;
    Ok(Report {
        ends: workers(alloc, logs)?,
        channels,
    })
}
