//! A run that is watched: what each of its steps leaves in the tables, and what is found by it.

ghost use Rattle.std.specs.Prelude.{◌≡◌, ℕ, ◌++◌, ◌<◌, IsTrue, None, OnOk, Some, length, slice_set, if◌then◌else◌};
ghost use Rattle.std.specs.Option.{option_or};
ghost use Rattle.pp_channel.specs.declared.flags.Flags.{Flags};
ghost use Rattle.pp_numbers.specs.ChannelNo.{names_channel};
ghost use Rattle.pp_machine.specs.MachineState.{MachineState, processor_of};
ghost use Rattle.pp_processor.specs.NeedAndEffect.{need};
ghost use Rattle.pp_numbers.specs.PpNo.{names_processor};
ghost use Rattle.pp_processor.specs.declared.need.Need.{Need};
ghost use Rattle.pp_races.specs.ByFlags.{at};
ghost use Rattle.pp_races.specs.Soundness.{AsksLawfulChannel};
ghost use Rattle.pp_races.specs.Tables.{entry_count, entry_place, closing_findings, looks_after_event, AreClosed, AreUses};
ghost use Rattle.pp_races.specs.WatchTables.{AreTables};
ghost use Rattle.pp_races.specs.Watch.{Watch, each_number, first_race, looked, made, race_before, watched_need};

use crate::asked::Asked;
use crate::by_flags::ByFlags;
use crate::finding::keep;
use crate::missed::Missed;
use crate::watch_tables::{Looks, WatchTables};
use crate::word_use::WordUse;
use crate::{AskingStep, Finding};
use pp_channel::{CHANNELS, ChannelNo, Event, Flags, Memory, flags_after};
use pp_machine::{Machine, Need, PROCESSORS, PpNo, Trace};
use pp_word::Word18;
use std::alloc::Allocator;

/// The place of the entry of a processor and a channel.
#[tactic(auto, using(pp_numbers::specs::PpNo::processor_places, // places
pp_numbers::specs::ChannelNo::channel_places))]
pub(crate) fn entry_place(n: PpNo, c: ChannelNo) -> usize
    ensures place { result ≡ entry_place n c }
    ensures within { result < entry_count }
    ensures processor { IsTrue (names_processor n) }
    ensures channel { IsTrue (names_channel c) }
{
    n.index() * CHANNELS + c.index()
}

/// Keeps that a step would have raced before an event, if there is one.
fn push_before<A: Allocator>(
    findings: &mut Vec<Finding, A>,
    step: &AskingStep,
    entry: &Option<Trace>,
) -> Result<(), Memory>
    ensures { OnOk result (findings.new.items
        ≡ findings.old.items ++ race_before step.now entry.now) }
{
    match entry {
        Some(entry) => keep(findings, Finding::Before(*step, *entry)),
        None => Ok(()),
    }
}

/// With one more look, which would have done the same at these flags.
fn with_look(looks: &Looks, alike: &ByFlags<bool>, step: &AskingStep) -> Looks
    ensures { (f : Flags) → at result f
        ≡ option_or (at looks.now f) (if at alike.now f then None else Some step.now) }
{
    ByFlags::of(|flags| {
        looks
            .at(flags)
            .or(if alike.at(flags) { None } else { Some(*step) })
    })
}

/// Closes the looks of a processor at a channel on which another makes this event: those of the
/// maker, and those of which one would have done otherwise at the flags after it.
fn close_looks<A: Allocator>(
    looks: &mut [Looks],
    q: PpNo,
    made: &Trace,
    after: Flags,
    findings: &mut Vec<Finding, A>,
) -> Result<(), Memory>
    requires looks { length looks.old ≡ entry_count }
    ensures looks { OnOk result (looks.new ≡ slice_set looks.old (entry_place q made.now.channel)
        (looks_after_event made.now.pp after q looks.old made.now.channel)) }
    ensures findings { OnOk result (findings.new.items ≡ findings.old.items
        ++ closing_findings made.now after looks.old q) }
{
    let entry = entry_place(q, made.channel);
    let kept = looks[entry];
    if q.get() == made.pp.get() {
        looks[entry] = ByFlags::all(None);
        return Ok(());
    }
    match kept.at(after) {
        Some(look) => {
            looks[entry] = ByFlags::all(None);
            keep(findings, Finding::After(look, *made))
        }
        None => Ok(()),
    }
}

/// Closes those of all processors.
fn close_all<A: Allocator>(
    looks: &mut [Looks],
    made: &Trace,
    after: Flags,
    findings: &mut Vec<Finding, A>,
) -> Result<(), Memory>
    requires looks { length looks.old ≡ entry_count }
    ensures looks { OnOk result (AreClosed made.now after looks.old looks.new) }
    ensures findings { OnOk result (findings.new.items ≡ findings.old.items
        ++ each_number (closing_findings made.now after looks.old)) }
{
    // The call says to the proof that the channel exists.
    let _channel = made.channel.get();
    for place in 0..PROCESSORS {
        close_looks(looks, PpNo::at(place), made, after, findings)?;
    }
    Ok(())
}

/// Takes in that a processor reads the central word of an address.
fn take_read(uses: &mut [WordUse], n: PpNo, a: Word18)
    ensures { (m : MachineState) (w : Watch) → AreUses w uses.old
        → AreUses (watched_need (Need.Read a) n m w) uses.new }
{
    let place = a.get() as usize;
    if place < uses.len() {
        let was = uses[place];
        uses[place] = was.read_by(n);
    }
}

/// Takes in that a processor writes one.
fn take_write(uses: &mut [WordUse], n: PpNo, a: Word18)
    ensures { (word : ℕ) (m : MachineState) (w : Watch) → AreUses w uses.old
        → AreUses (watched_need (Need.Write a word) n m w) uses.new }
{
    let place = a.get() as usize;
    if place < uses.len() {
        let was = uses[place];
        uses[place] = was.written_by(n);
    }
}

impl<A: Allocator> WatchTables<A> {
    /// The first event that the processor missed on the channel and that found one of these flags.
    pub(crate) fn first_race(&mut self, asked: &Asked<A>, races: &ByFlags<bool>) -> Option<Trace>
        ensures kept { (size : ℕ) (w : Watch) → AreTables self.old size w
            → AreTables self.new size w }
        ensures race { (size : ℕ) (w : Watch) → AreTables self.old size w
            → result ≡ first_race (at races.now) (w.missed asked.now.n asked.now.c) }
    {
        let events = self.events[asked.c.index()].as_slice();
        self.cursors[entry_place(asked.n, asked.c)].first_race(events, races)
    }

    /// Takes in a look of a processor, which moves it.
    fn take_look(&mut self, asked: &Asked<A>) -> Result<(), Memory>
        ensures { OnOk result ((size : ℕ) (w : Watch) → AreTables self.old size w → AreTables
            self.new size (looked asked.now.n asked.now.c asked.now.op asked.now.machine.now w)) }
    {
        let found = asked.found();
        let alike = ByFlags::of(|flags| found.at(flags).is_alike());
        let races = ByFlags::of(|flags| found.at(flags).is_race());
        let step = asked.step();
        let race = self.first_race(asked, &races);
        push_before(&mut self.found, &step, &race)?;
        let entry = entry_place(asked.n, asked.c);
        let events = self.events[asked.c.index()].as_slice();
        self.cursors[entry].pass(events, &alike);
        let looks = self.looks[entry];
        self.looks[entry] = with_look(&looks, &alike, &step);
        Ok(())
    }

    /// Takes in an event of a processor.
    fn take_event(&mut self, asked: &Asked<A>, event: &Event) -> Result<(), Memory>
        ensures { OnOk result ((size : ℕ) (w : Watch) → AreTables self.old size w → AreTables
            self.new size
            (made asked.now.n asked.now.c asked.now.op event.now asked.now.machine.now w)) }
    {
        let goes_on = asked.goes_on_at();
        let race = self.first_race(asked, &goes_on);
        push_before(&mut self.found, &asked.step(), &race)?;
        let made = asked.entry(event);
        close_all(&mut self.looks, &made, flags_after(event), &mut self.found)?;
        let missed = Missed {
            found: asked.flags(),
            entry: made,
        };
        let events = &mut self.events[asked.c.index()];
        events.push(missed)?;
        self.cursors[entry_place(asked.n, asked.c)].pass_all(events.as_slice());
        Ok(())
    }

    /// Takes in an operation on a channel.
    fn take_asked(&mut self, asked: &Asked<A>) -> Result<(), Memory>
        ensures sound { AsksLawfulChannel (Need.Channel asked.now.c asked.now.op)
            asked.now.machine.now }
        ensures watched { OnOk result ((size : ℕ) (w : Watch) → AreTables self.old size w
            → AreTables self.new size
            (watched_need (Need.Channel asked.now.c asked.now.op) asked.now.n
            asked.now.machine.now w)) }
    {
        let channel = asked.machine.channel(asked.c);
        // The calls say to the proof that the channel exists, and that its history is lawful.
        let _entry = entry_place(asked.n, asked.c);
        let _sound = channel.history();
        if let Some(event) = channel.next_event(&asked.op) {
            return self.take_event(asked, &event);
        }
        if asked.waits() {
            return Ok(());
        }
        self.take_look(asked)
    }

    /// Takes in the next step of a processor.
    pub(crate) fn take_step(&mut self, machine: &Machine<A>, n: PpNo) -> Result<(), Memory>
        ensures sound { AsksLawfulChannel (need (processor_of n machine.now)) machine.now }
        ensures watched { OnOk result ((size : ℕ) (w : Watch) → AreTables self.old size w
            → AreTables self.new size
            (watched_need (need (processor_of n machine.now)) n machine.now w)) }
    {
        match machine.pp(n).wants() {
            Need::Channel(c, op) => self.take_asked(&Asked { machine, n, c, op })?,
            Need::Read(a) => take_read(&mut self.uses, n, a),
            Need::Write(a, _) => take_write(&mut self.uses, n, a),
            Need::Nothing | Need::Local => {}
        }
        Ok(())
    }
}
