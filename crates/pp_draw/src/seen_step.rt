ghost use Rattle.std.specs.Prelude.{◌≡◌, map, IfErr, IfOk, IsTrue};
ghost use Rattle.std.specs.List.{filter};
ghost use Rattle.pp_machine.specs.Run.{IsRunOf};
ghost use Rattle.pp_numbers.specs.PpNo.{each_processor};
ghost use Rattle.pp_run.specs.RunSteps.{IsCutAt, seen_of};
ghost use Rattle.pp_draw.specs.SeenStep.{condition_by, earlier, earlier_steps, earlier_with, found_in, is_shown, seen, seen_in_window};

use crate::Condition;
use pp_channel::Memory;
use pp_machine::{Block, Cut, Machine, Need, Outcome, PROCESSORS, PpNo, PpState};
use pp_numbers::Window;
use pp_run::{Observer, Order, run_observed};
use std::alloc::Allocator;

/// A step of a run.
#[derive(Clone, Copy)]
pub struct SeenStep {
    /// How many turns the machine had counted before it (decimal).
    pub turn: u64,
    /// The processor whose step it was.
    pub pp: PpNo,
    /// How it found its processor.
    pub condition: Condition,
}

/// Those steps of a run that are drawn.
#[derive(Drop)]
pub struct SeenSteps<A: Allocator> {
    /// The last step of each processor before the window, in the order of the barrel, unless it is
    /// among the others.
    pub earlier: [Option<SeenStep>; PROCESSORS],
    /// Each step in the window, and in the round before it.
    pub shown: Vec<SeenStep, A>,
}

/// Makes the steps of an order, and says how each step in a window, and in the round before it,
/// found its processor; and how its last step before the window did, if that is earlier.
pub fn run_seeing_steps<A: Allocator, B: Allocator>(
    alloc: A,
    machine: &mut Machine<A>,
    order: &Order<B>,
    window: Window,
) -> Result<SeenSteps<A>, Cut>
    ensures run { IsRunOf order.now result machine.old machine.new }
    ensures earlier { IfOk result (λ steps.
        steps.earlier ≡ earlier_steps window order.now machine.old) }
    ensures seen { IfOk result (λ steps.
        steps.shown.items ≡ seen_in_window window order.now machine.old) }
    // A run is cut only where an event or a step had to be kept.
    ensures cut_at { IfErr result (λ c.
        IsCutAt (λ step. IsTrue (is_shown window (seen step))) order.now machine.old c.done) }
{
    let mut seen = InWindow {
        window,
        earlier: [None; PROCESSORS],
        shown: Vec::new(alloc),
    };
    run_observed(machine, order, &mut seen)?;
    let InWindow { earlier, shown, .. } = seen;
    Ok(SeenSteps { earlier, shown })
}

/// The steps that are drawn in a window.
#[derive(Drop)]
struct InWindow<A: Allocator> {
    window: Window,
    earlier: [Option<SeenStep>; PROCESSORS],
    shown: Vec<SeenStep, A>,
}

/// What is noted of a machine and a processor before a step.
#[derive(Clone, Copy)]
struct Found {
    turn: u64,
    state: PpState,
    need: Need,
    block: Option<Block>,
}

impl<A: Allocator> Observer<A> for InWindow<A> {
    type Note = Found;

    ghost HasSeen = { λ start steps now. (now.window ≡ start.window)
        × (now.earlier ≡ each_processor (λ n. earlier start.window (seen_of seen n steps)))
        × (now.shown.items ≡ filter (is_shown start.window) (map seen steps)) };

    ghost IsNote = { λ found step. found ≡ found_in step };

    ghost Keeps = { λ start step. IsTrue (is_shown start.window (seen step)) };

    fn note(&self, machine: &Machine<A>, n: PpNo) -> Found {
        Found {
            turn: machine.turns(),
            state: machine.pp(n).state(),
            need: machine.pp(n).wants(),
            block: machine.pp(n).block(),
        }
    }

    fn see(
        &mut self,
        found: &Found,
        _machine: &Machine<A>,
        n: PpNo,
        outcome: Outcome,
    ) -> Result<(), Memory> {
        let step = SeenStep {
            turn: found.turn,
            pp: n,
            condition: condition_by(found, outcome),
        };
        let place = n.index();
        self.earlier[place] = earlier_with(self.window, &self.earlier[place], &step);
        if is_shown(self.window, &step) {
            self.shown.push(step)?;
        }
        Ok(())
    }
}

/// Whether a step is in the window, or in the round before it.
fn is_shown(window: Window, step: &SeenStep) -> bool
    ensures { result ≡ is_shown window step.now }
{
    u64::from(window.from).saturating_sub(PROCESSORS as u64) <= step.turn
}

/// The last step of a processor before the window, unless it is shown, with one step more.
fn earlier_with(window: Window, last: &Option<SeenStep>, step: &SeenStep) -> Option<SeenStep>
    ensures { result ≡ earlier_with window last.now step.now }
{
    if u64::from(window.from) <= step.turn {
        *last
    } else if is_shown(window, step) {
        None
    } else {
        Some(*step)
    }
}

/// How a step with this outcome found its processor.
fn condition_by(found: &Found, outcome: Outcome) -> Condition
    ensures { result
        ≡ condition_by found.now.state outcome found.now.need found.now.block }
{
    match (found.state, outcome, &found.need, &found.block) {
        (PpState::Stopped, _, _, _) => Condition::Stopped,
        (PpState::Fault(_), _, _, _) => Condition::Faulted,
        (PpState::Running, Outcome::Held, Need::Channel(c, _), _) => Condition::HeldBy(*c),
        (PpState::Running, _, _, Some(_)) => Condition::InBlock,
        (PpState::Running, _, _, None) => Condition::Running,
    }
}
