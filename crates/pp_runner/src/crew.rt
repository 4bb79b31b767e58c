ghost use Rattle.std.specs.Prelude.{◌≡◌, ◌+◌, ◌*◌, ◌++◌, ◌∷◌, [], List, take, length, vec_len, IfOk};
ghost use Rattle.std.specs.List.{AllZip};
ghost use denote.Param.Send.{IsSync, IsSend, Frees};
ghost use Rattle.pp_line.specs.LineState.{IsSplitFrom};
ghost use Rattle.pp_processor.specs.Processor.{Processor};
ghost use Rattle.pp_runner.specs.Crew.{IsEnded, HasEnded, AreReady, HasBegun};
ghost use Rattle.pp_runner.specs.WorkerState.{IsUnused};

use crate::run_context::RunContext;
use crate::worker::Ended;
use crate::worker_state::work;
use crate::{Gate, RunFault};
use pp_line::Line;
use pp_machine::{Machine, Pp, PpNo, PpState};
use std::alloc::Allocator;
use std::snapshot::Snapshot;
use std::sync::Wait;
use std::thread::{self, Promise, PromisedHandle, Scope, Threads};

/// Workers that have ended, in order, each beside its line, which has its log.
pub type Crew<A> = Vec<(Ended<A>, Line<A>), A>;

/// The promise that a worker ends as one that began with this processor and this line.
#[derive(Drop)]
struct EndsAs<A: Allocator> {
    load: Snapshot<Pp>,
    line: Snapshot<Line<A>>,
    run: Snapshot<RunContext<A>>,
}

impl<A: Allocator> Promise<(Ended<A>, Line<A>)> for EndsAs<A> {
    ghost kept_by = { λ p ended. IsEnded p.load.value p.run.value.size p.run.value.limits.steps
        p.line.value ended.0 ended.1 };
}

/// A worker that has begun.
#[derive(Drop)]
enum Begun<A: Allocator> {
    /// In this thread, which has yet to run it, with this number, on this line.
    Here(PpNo, Line<A>),
    /// In a thread of its own.
    Apart(PromisedHandle<(Ended<A>, Line<A>), EndsAs<A>>),
}

// The calls nest once for each worker. If these two were compiled in place, each level would hold
// the stack of both.

/// Begins a worker: the first in this thread, and so one at rest, which makes no step.
#[inline(never)]
fn begin<'s, 'e: 's, G: Gate + Sync, A: Allocator + Copy + Send + Sync>(
    scope: &Scope<'s, &'e ()>,
    run: &'e RunContext<A>,
    gate: &'e G,
    number: PpNo,
    load: &'e Pp,
    line: Line<A>,
) -> Result<Begun<A>, RunFault>
    requires fresh { IsSplitFrom run.now.family.value (2 * run.now.limits.steps + 1) line }
    requires central { length run.now.family.value.view.central ≡ run.now.size }
    ensures { IfOk result
        (HasBegun load.now run.now.size run.now.limits.steps run.now.family.value) }
{
    if number.index() == 0 || !matches!(load.state(), PpState::Running) {
        return Ok(Begun::Here(number, line));
    }
    let promise = EndsAs {
        load: Snapshot::of(load),
        line: Snapshot::of(&line),
        run: Snapshot::of(run),
    };
    let child = scope.spawn_with(
        promise,
        move || -> (Ended<A>, Line<A>)
            requires { IsUnused run.now.size run.now.limits.steps line }
            ensures { IsEnded load.entry.now run.entry.now.size
                run.entry.now.limits.steps line result.0 result.1 }
        { work(run, gate, number, load, line) },
    )?;
    Ok(Begun::Apart(child))
}

/// Runs a worker that is to run here, or waits for its thread, and puts it after the others.
#[inline(never)]
fn finish<R: Threads, G: Gate, A: Allocator + Copy>(
    rt: &R,
    run: &RunContext<A>,
    gate: &G,
    load: &Pp,
    begun: Begun<A>,
    others: Result<Crew<A>, RunFault>,
) -> Result<Crew<A>, RunFault>
    requires begun { HasBegun load.now run.now.size run.now.limits.steps
        run.now.family.value begun }
    requires central { length run.now.family.value.view.central ≡ run.now.size }
    ensures { (loads : List Processor) → IfOk others (λ crew. AllZip
        (HasEnded run.now.size run.now.limits.steps run.now.family.value) loads crew.items)
        → IfOk result (λ crew. AllZip
        (HasEnded run.now.size run.now.limits.steps run.now.family.value)
        (loads ++ load.now ∷ []) crew.items) }
{
    let last = match begun {
        Begun::Here(number, line) => work(run, gate, number, load, line),
        Begun::Apart(child) => child.join(rt),
    };
    let mut crew = others?;
    crew.push(last)?;
    Ok(crew)
}

/// Begins the worker on the last line, runs those before it, and waits for it.
fn run_lines<'s, 'e: 's, R: Threads, G: Gate + Sync, A: Allocator + Copy + Send + Sync>(
    rt: &R,
    scope: &Scope<'s, &'e ()>,
    run: &'e RunContext<A>,
    gate: &'e G,
    machine: &'e Machine<A>,
    mut lines: Vec<Line<A>, A>,
) -> Result<Crew<A>, RunFault>
    requires { AreReady machine.now run.now.size run.now.limits.steps run.now.family.value
        lines.items }
    ensures { IfOk result (λ crew. AllZip
        (HasEnded run.now.size run.now.limits.steps run.now.family.value)
        (take (vec_len lines) machine.now.processors) crew.items) }
{
    let Some(line) = lines.pop() else {
        return Ok(Vec::new(run.alloc));
    };
    let number = PpNo::at(lines.len());
    let load = machine.pp(number);
    let begun = begin(scope, run, gate, number, load, line)?;
    let others = run_lines(rt, scope, run, gate, machine, lines);
    finish(rt, run, gate, load, begun, others)
}

/// Runs the workers of the barrel's first processors at once, one on each line.
pub fn run_crew<R: Threads + Wait, G: Gate + Sync, A: Allocator + Copy + Send + Sync>(
    rt: &R,
    run: &RunContext<A>,
    gate: &G,
    machine: &Machine<A>,
    lines: Vec<Line<A>, A>,
) -> Result<Crew<A>, RunFault>
    requires { AreReady machine.now run.now.size run.now.limits.steps run.now.family.value
        lines.items }
    ensures { IfOk result (λ crew. AllZip
        (HasEnded run.now.size run.now.limits.steps run.now.family.value)
        (take (vec_len lines) machine.now.processors) crew.items) }
{
    thread::scope(
        thread::scope_env(),
        rt,
        |scope| -> Result<Crew<A>, RunFault>
            requires { IsSync G.row × IsSend A.row × IsSync A.row
                × Frees A.Allocator A.dealloc_token × AreReady machine.now run.now.size
                run.now.limits.steps run.now.family.value lines.items }
            ensures { IfOk result (λ crew. AllZip
                (HasEnded run.entry.now.size run.entry.now.limits.steps
                run.entry.now.family.value)
                (take (vec_len lines) machine.entry.now.processors) crew.items) }
        { run_lines(rt, scope, run, gate, machine, lines) },
    )
}
