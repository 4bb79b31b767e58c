ghost use Rattle.std.specs.Prelude.{◌≡◌, ◌<◌, ◌≤◌, ◌+◌, ◌-◌, ◌*◌, ◌^◌, ℕ, List, length, vec_len, vec_capacity, IfOk, IfSome, IfNone, OnErr};
ghost use Rattle.pp_line.specs.LineLog.{seen_on};
ghost use Rattle.pp_runner.specs.Types.{Answer, Entry};
ghost use Rattle.pp_processor.specs.NeedAndEffect.{need};
ghost use Rattle.pp_runner.specs.Crew.{IsEnded};
ghost use Rattle.pp_runner.specs.WorkerState.{IsAtWork, IsUnused, IsAnswered, IsSameLine, HasActed, HasLooked, HasOperated, operations};
ghost use Rattle.pp_runner.specs.End.{IsEnd, NeedsWornChannel, WornWithCause, WasHeld};

use crate::run_context::RunContext;
use crate::spinning::Spinning;
use crate::worker::Ended;
use crate::{End, Gate};
use pp_line::{Line, Worn};
use pp_machine::{Answer, Need, Outcome, Pp, PpNo, PpState};
use std::alloc::Allocator;

/// A worker between two tries of a step.
#[derive(Drop)]
pub struct WorkerState<A: Allocator> {
    pub number: PpNo,
    pub pp: Pp,
    pub answers: Vec<Answer, A>,
    pub line: Line<A>,
    pub tries: u64,
    pub spinning: Spinning,
}

/// What one try of a step did.
#[derive(Clone, Copy)]
enum Try {
    Moved,
    Held,
    Worn,
}

/// What a channel or central memory answers to a need. `Worn` leaves the log as it was.
fn ask<A: Allocator + Copy>(line: &mut Line<A>, needed: Need) -> Result<Answer, Worn>
    requires { 1 ≤ line.old.log.room }
    ensures answered { IfOk result (λ x. IsAnswered
        (length line.old.view.central) needed x line.old line.new) }
    ensures acted { IfOk result (λ x. HasActed needed line.old x line.new) }
    ensures worn { OnErr result (NeedsWornChannel (λ c. seen_on c line.new.view.seen) needed) }
    ensures unchanged_when_worn { OnErr result (line.new.log ≡ line.old.log) }
    ensures looked_when_worn { OnErr result (HasLooked line.old line.new) }
    ensures same_line { IsSameLine line.old line.new }
    ensures operated { HasOperated (operations needed) line.old line.new }
{
    match needed {
        Need::Nothing | Need::Local => Ok(Answer::Local),
        Need::Channel(channel, op) => {
            let numbered = line.act(channel, op)?;
            Ok(Answer::Channel(numbered.reply))
        }
        Need::Read(address) => Ok(Answer::Read(line.read(address))),
        Need::Write(address, word) => Ok(Answer::Wrote(line.write(address, word))),
    }
}

impl<A: Allocator + Copy> WorkerState<A> {
    /// One try of the next step. Its answer is kept only if the processor moves, and with it the
    /// look that gave it.
    fn try_step(&mut self, run: &RunContext<A>, load: &Pp) -> Try
        requires running { self.old.pp.state ≡ PpState.Running }
        requires steps_left { vec_len self.old.answers < run.now.limits.steps }
        requires place { vec_len self.old.answers < vec_capacity self.old.answers }
        requires central { length self.old.line.view.central ≡ run.now.size }
        requires work { IsAtWork load.now run.now.size run.now.limits.steps self.old.pp
            self.old.answers.items self.old.line }
        ensures work { IsAtWork load.now run.now.size run.now.limits.steps self.new.pp
            self.new.answers.items self.new.line }
        ensures same_line { IsSameLine self.old.line self.new.line }
        ensures operated { HasOperated (operations (need self.old.pp)) self.old.line self.new.line }
        ensures tries { self.new.tries ≡ self.old.tries }
        ensures moved { result ≡ Try.Moved → vec_len self.new.answers
            ≡ vec_len self.old.answers + 1 }
        ensures held { result ≡ Try.Held → (self.new.pp ≡ self.old.pp)
            × (self.new.answers ≡ self.old.answers)
            × WasHeld self.new.pp self.new.line.log.entries }
        ensures worn { result ≡ Try.Worn → (self.new.pp ≡ self.old.pp)
            × (self.new.answers ≡ self.old.answers)
            × NeedsWornChannel (λ c. seen_on c self.new.line.view.seen) (need self.new.pp) }
    {
        let (next, d) = self.pp.next_instruction();
        let answered = ask(&mut self.line, self.pp.wants_next(&next, d));
        match &answered {
            Err(_) => Try::Worn,
            Ok(answer) => match self.pp.give_next(&next, d, *answer) {
                Outcome::Held => Try::Held,
                Outcome::Moved => {
                    self.line.keep();
                    self.answers.push_reserved(*answer);
                    Try::Moved
                }
                Outcome::AtRest => unreachable!(),
            },
        }
    }

    /// Tries the next step until the processor moves, and then answers `None`. If the step needs an
    /// operation, each try makes one; a worker gives up after exactly as many as its patience.
    fn take_step<G: Gate>(&mut self, run: &RunContext<A>, gate: &G, load: &Pp) -> Option<End>
        requires running { self.old.pp.state ≡ PpState.Running }
        requires steps_left { vec_len self.old.answers < run.now.limits.steps }
        requires work { IsAtWork load.now run.now.size run.now.limits.steps self.old.pp
            self.old.answers.items self.old.line }
        requires central { length self.old.line.view.central ≡ run.now.size }
        requires countable { self.old.tries + run.now.limits.patience < 2 ^ 64 }
        ensures work { IsAtWork load.now run.now.size run.now.limits.steps self.new.pp
            self.new.answers.items self.new.line }
        ensures same_line { IsSameLine self.old.line self.new.line }
        ensures operated { HasOperated ((self.new.tries - self.old.tries)
            * operations (need self.old.pp)) self.old.line self.new.line }
        ensures few_tries { (self.old.tries ≤ self.new.tries)
            × (self.new.tries ≤ self.old.tries + run.now.limits.patience) }
        ensures one_step { IfSome result (λ _. (self.new.pp ≡ self.old.pp)
            × (self.new.answers.items ≡ self.old.answers.items)) }
        ensures patience { IfSome result (λ finish. finish ≡ End.Patience
            → (self.new.tries ≡ self.old.tries + run.now.limits.patience)
            × HasOperated run.now.limits.patience self.old.line self.new.line) }
        ensures moved { IfNone result (vec_len self.new.answers ≡ vec_len self.old.answers + 1) }
        ensures next_step { IfNone result ((self.new.spinning.in_vain ≡ 0)
            × (self.new.spinning.yields ≡ 0)) }
        ensures few { IfSome result (λ _. vec_len self.new.answers ≤ run.now.limits.steps) }
        ensures ended { IfSome result (λ finish. IsEnd run.now.limits.steps finish self.new.pp
            self.new.answers.items self.new.line.log.entries) }
        ensures worn { IfSome result (λ finish.
            WornWithCause (λ c. seen_on c self.new.line.view.seen) finish self.new.pp) }
    {
        // Room for all answers at once: a list that grows is copied.
        let left = run.limits.steps() as usize - self.answers.len();
        if self.answers.reserve(left).is_err() {
            return Some(End::Memory);
        }
        for held in 0..run.limits.patience() {
            gate.pass(self.number, self.tries);
            self.tries += 1;
            match self.try_step(run, load) {
                Try::Moved => {
                    self.spinning.moved();
                    return None;
                }
                Try::Held => self.spinning.wait(),
                Try::Worn => return Some(End::Worn),
            }
        }
        Some(End::Patience)
    }

    /// What is left when no further step is made, and the line, which has the log.
    fn ended(self, run: &RunContext<A>, load: &Pp, finish: End) -> (Ended<A>, Line<A>)
        requires work { IsAtWork load.now run.now.size run.now.limits.steps self.pp
            self.answers.items self.line }
        requires few { vec_len self.answers ≤ run.now.limits.steps }
        requires finish { IsEnd run.now.limits.steps finish self.pp self.answers.items
            self.line.log.entries }
        requires worn { WornWithCause (λ c. seen_on c self.line.view.seen) finish self.pp }
        ensures ended { IsEnded load.now run.now.size run.now.limits.steps self.line
            result.0 result.1 }
        ensures line { result.1 ≡ self.line }
        ensures finish { result.0.finish ≡ finish }
    {
        let ended = Ended {
            pp: self.pp,
            answers: self.answers,
            finish,
        };
        (ended, self.line)
    }
}

/// The end of a processor at rest.
fn at_rest(pp: &Pp) -> Option<End>
    ensures running { IfNone result (pp.now.state ≡ PpState.Running) }
    ensures ended { IfSome result (λ finish. (steps : ℕ) (answers : List Answer) (log : List Entry)
        → IsEnd steps finish pp.now answers log) }
{
    match pp.state() {
        PpState::Running => None,
        PpState::Stopped => Some(End::Stopped),
        PpState::Fault(number) => Some(End::Fault(number)),
    }
}

/// A worker from its load to its end, on a line of its own, which it gives back.
pub fn work<G: Gate, A: Allocator + Copy>(
    run: &RunContext<A>,
    gate: &G,
    number: PpNo,
    load: &Pp,
    line: Line<A>,
) -> (Ended<A>, Line<A>)
    requires { IsUnused run.now.size run.now.limits.steps line }
    ensures ended { IsEnded load.now run.now.size run.now.limits.steps line result.0 result.1 }
    ensures patience { result.0.finish ≡ End.Patience
        → length line.view.found + run.now.limits.patience ≤ length result.1.view.found }
{
    // Reveals to the proof that the patience has 32 bits, so that tries can be counted.
    let _patience = run.limits.patience();
    let mut worker = WorkerState {
        number,
        pp: load.copy(),
        answers: Vec::new(run.alloc),
        line,
        tries: 0,
        spinning: run.spinning,
    };
    for done in 0..run.limits.steps() {
        if let Some(finish) = at_rest(&worker.pp) {
            return worker.ended(run, load, finish);
        }
        if let Some(finish) = worker.take_step(run, gate, load) {
            return worker.ended(run, load, finish);
        }
    }
    let finish = at_rest(&worker.pp).unwrap_or(End::Steps);
    worker.ended(run, load, finish)
}
