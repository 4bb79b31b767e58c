//! The barrel: what `Machine::run_turns` does with the list of its turns. All else here is speed:
//! rounds that are quiet are made processor by processor, and processors at rest are passed over.

ghost use Rattle.std.specs.Prelude.{◌≡◌, ◌*◌, ◌<◌, ◌≤◌, length, IfErr, OnOk};
ghost use Rattle.pp_numbers.specs.{PpNo.processor_count, Profile.processors_in};
ghost use Rattle.pp_numbers.specs.declared.profile.Profile.{Profile};
ghost use Rattle.pp_machine.specs.{Headline.HoldsOnEachChannel, MachineState.MachineState};
ghost use Rattle.pp_machine.specs.Rounds.{IsCut, PassesOverRest, RestBetween, whole_rounds};
ghost use Rattle.pp_machine.specs.Run.{IsCutAtEvent, IsRunOf, run, barrel};

use crate::quiet::run_ahead;
use crate::{Cut, Machine, Pp};
use pp_numbers::{PROCESSORS, PpNo};
use std::alloc::Allocator;

/// The fewest and the most rounds that the barrel tries to make quietly at once (decimal). A window
/// costs a copy of each running processor's memory, and, if it fails, steps made in vain.
const SHORTEST_WINDOW: u32 = 64;

const LONGEST_WINDOW: u32 = 8192;

/// Rounds (decimal) until the barrel looks again who is at rest: a look costs several turns.
const LOOK_AFTER: u32 = 512;

/// The fewest and the most rounds turn by turn after a window failed (decimal): twice as many each
/// time, but the fewest again once `LONG_QUIET` quiet rounds have paid for a window.
const SHORTEST_PAUSE: u32 = 64;

const LONGEST_PAUSE: u32 = 8192;

const LONG_QUIET: u32 = 2048;

impl<A: Allocator> Machine<A> {
    /// Runs `turns` turns of the barrel from its first processor on, in rounds of ten or of twenty
    /// by its profile. Processors at rest are passed over.
    pub fn run_barrel(&mut self, turns: u32) -> Result<(), Cut>
        ensures run { IsRunOf (barrel self.old.profile turns) result self.old self.new }
        ensures cut_at_event { IfErr result (λ c.
            IsCutAtEvent (barrel self.old.profile turns) self.old c.done) }
    {
        self.is_sound();
        let round = self.round();
        let whole = turns / round;
        if let Err(done) = self.run_rounds(whole) {
            return Err(Cut { done });
        }
        let next = next_running(&self.processors);
        match self.run_passing(1, turns % round, &next) {
            Ok(()) => Ok(()),
            Err(before) => Err(Cut {
                done: u64::from(whole) * u64::from(round) + before,
            }),
        }
    }

    /// The number of turns in a round of the barrel.
    fn round(&self) -> u32
        ensures { result ≡ processors_in self.now.profile }
    {
        self.profile().processors() as u32
    }

    /// Makes `rounds` whole rounds of the barrel: quietly if possible, otherwise turn by turn. If
    /// memory is refused, returns how many steps were done.
    fn run_rounds(&mut self, rounds: u32) -> Result<(), u64>
        requires { HoldsOnEachChannel self.old }
        ensures ok { OnOk result (self.new ≡ run (whole_rounds self.old.profile rounds) self.old) }
        ensures cut { IfErr result (λ done.
            IsCut (rounds * processors_in self.old.profile) done self.old self.new) }
        ensures headline { HoldsOnEachChannel self.new }
    {
        let round = self.round();
        let mut done = 0;
        let mut quiet_so_far: u32 = 0;
        let mut pause = SHORTEST_PAUSE;
        while done < rounds {
            // Half as many as were quiet since a window failed, within bounds.
            let window = (quiet_so_far / 2)
                .clamp(SHORTEST_WINDOW, LONGEST_WINDOW)
                .min(rounds - done);
            let quiet = self.run_quiet_rounds(window);
            done += quiet;
            quiet_so_far = quiet_so_far.saturating_add(quiet);
            if quiet < window {
                if quiet_so_far >= LONG_QUIET {
                    pause = SHORTEST_PAUSE;
                }
                let further = (rounds - done).min(pause);
                if let Err(before) = self.run_by_turns(further) {
                    return Err(u64::from(done) * u64::from(round) + before);
                }
                done += further;
                quiet_so_far = 0;
                pause = (2 * pause).min(LONGEST_PAUSE);
            }
        }
        Ok(())
    }

    /// Makes at most `max` whole rounds of the barrel, while they are quiet; returns their number.
    #[inline(never)]
    fn run_quiet_rounds(&mut self, max: u32) -> u32
        ensures most { result ≤ max }
        ensures ran { self.new ≡ run (whole_rounds self.old.profile result) self.old }
        ensures headline { HoldsOnEachChannel self.new }
    {
        let turns = self.turns;
        let round = self.round();
        let rounds = run_ahead(&mut self.processors, &self.channels, round as usize, 0, max);
        self.turns = turns.saturating_add(u64::from(rounds) * u64::from(round));
        rounds
    }

    /// Makes `rounds` whole rounds of the barrel, turn by turn; processors at rest are passed over.
    #[inline(never)]
    fn run_by_turns(&mut self, rounds: u32) -> Result<(), u64>
        requires { HoldsOnEachChannel self.old }
        ensures ok { OnOk result (self.new ≡ run (whole_rounds self.old.profile rounds) self.old) }
        ensures cut { IfErr result (λ done.
            IsCut (rounds * processors_in self.old.profile) done self.old self.new) }
        ensures headline { HoldsOnEachChannel self.new }
    {
        let round = self.round();
        let mut done = 0;
        while done < rounds {
            let further = (rounds - done).min(LOOK_AFTER);
            let next = next_running(&self.processors);
            if let Err(before) = self.run_passing(further, round, &next) {
                return Err(u64::from(done) * u64::from(round) + before);
            }
            done += further;
        }
        Ok(())
    }

    /// Makes whole rounds of the barrel, or the first turns of one, past those that `next` skips.
    #[inline(never)]
    fn run_passing(
        &mut self,
        rounds: u32,
        turns: u32,
        next: &[usize; PROCESSORS + 1],
    ) -> Result<(), u64>
        requires round { turns ≤ processors_in self.old.profile }
        requires whole { 1 < rounds → turns ≡ processors_in self.old.profile }
        requires passes { PassesOverRest next.now self.old.processors }
        requires sound { HoldsOnEachChannel self.old }
        ensures ok { OnOk result (self.new ≡ run
            (barrel self.old.profile (rounds * turns)) self.old) }
        ensures cut { IfErr result (λ done. IsCut (rounds * turns) done self.old self.new) }
        ensures headline { HoldsOnEachChannel self.new }
    {
        for done in 0..rounds {
            if let Err(before) = self.run_round(turns as usize, next) {
                return Err(u64::from(done) * u64::from(turns) + before as u64);
            }
        }
        Ok(())
    }

    /// Makes the first `turns` turns of a round, past the processors at rest that `next` gives.
    #[tactic(auto, using(crate::proofs::RoundLemmas::rest_to))]
    fn run_round(&mut self, turns: usize, next: &[usize; PROCESSORS + 1]) -> Result<(), usize>
        requires round { turns ≤ processors_in self.old.profile }
        requires passes { PassesOverRest next.now self.old.processors }
        requires sound { HoldsOnEachChannel self.old }
        ensures ok { OnOk result (self.new ≡ run (barrel self.old.profile turns) self.old) }
        ensures cut { IfErr result (λ done. IsCut turns done self.old self.new) }
        ensures passes { PassesOverRest next.now self.new.processors }
        ensures headline { HoldsOnEachChannel self.new }
    {
        let mut place = 0;
        loop {
            let running = next[place];
            if running >= turns {
                self.pass_to(place, turns);
                return Ok(());
            }
            self.pass_to(place, running);
            let Ok(_outcome) = self.step_in_barrel(PpNo::at(running)) else {
                return Err(running);
            };
            place = running + 1;
        }
    }

    /// Counts the turns of processors at rest, from one place to another.
    #[tactic(auto, using(crate::proofs::RoundLemmas::passed_to))]
    fn pass_to(&mut self, place: usize, running: usize)
        requires { RestBetween place running self.old.processors }
        ensures ran { (profile : Profile) (m : MachineState) → running ≤ processors_in profile
            → self.old ≡ run (barrel profile place) m → self.new ≡ run (barrel profile running) m }
        ensures processors { self.new.processors ≡ self.old.processors }
        ensures headline { HoldsOnEachChannel self.new }
    {
        let turns = self.turns;
        if place < running {
            self.turns = turns.saturating_add((running - place) as u64);
        }
    }
}

/// For each place of the barrel, and for its end, the first place from there on whose processor is
/// running, or the number of processors if there is none.
#[tactic(auto, using(crate::proofs::RoundLemmas::passes))]
fn next_running<A: Allocator>(processors: &Vec<Pp, A>) -> [usize; PROCESSORS + 1]
    requires { length processors.now.items ≡ processor_count }
    ensures { PassesOverRest result processors.now.items }
{
    let mut next = [PROCESSORS; PROCESSORS + 1];
    let mut running = PROCESSORS;
    for place in (0..PROCESSORS).rev() {
        if processors[place].state().is_running() {
            running = place;
        }
        next[place] = running;
    }
    next
}
