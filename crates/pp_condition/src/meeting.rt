//! Whether a step meets a condition.

ghost use Rattle.std.specs.Prelude.{◌≡◌, ◌↔◌, IsTrue};
ghost use Rattle.pp_channel.specs.declared.event.Event.{Event};
ghost use Rattle.pp_machine.specs.MachineState.{MachineState};
ghost use Rattle.pp_machine.specs.MachineStep.{stepped};
ghost use Rattle.pp_run.specs.BareMachine.{StandsFor};
ghost use Rattle.pp_condition.specs.declared.{condition.Condition.Condition, condition.ProcessorCondition.ProcessorCondition};
ghost use Rattle.pp_condition.specs.Condition.{ChangesTo, Does, HasForm, IsGiven, Meets};

use crate::{Condition, EventForm, ProcessorCondition};
use pp_channel::{ChannelNo, Event};
use pp_ends::is_quiet;
use pp_machine::{Need, PpState};
use pp_numbers::PpNo;
use pp_run::{BareMachine, Progress};
use pp_text::central_word;
use pp_word::{Word12, Word18, Word60};
use std::alloc::Allocator;

/// Makes a step of a processor, and says whether it meets a condition.
pub fn step_meeting<A: Allocator>(bare: &mut BareMachine<A>, n: PpNo, condition: &Condition) -> bool
    ensures stepped { (m : MachineState) → StandsFor bare.old m → StandsFor bare.new (stepped n m) }
    ensures meets { (m : MachineState) → StandsFor bare.old m
        → IsTrue result ↔ Meets condition.now (record { processor = n; before = m }) }
{
    match condition {
        Condition::Processor(named, does) => {
            let done = step_doing(bare, n, does);
            done && n.get() == named.get()
        }
        Condition::Central(address, word) => step_writing(bare, n, *address, word),
        Condition::Channel(channel, form) => {
            let makes = makes_on(bare, n, *channel, form);
            let _progress = bare.step(n);
            makes
        }
        Condition::Lost => {
            let loses = loses_a_word(bare, n);
            let _progress = bare.step(n);
            loses
        }
        Condition::Quiet => {
            let _progress = bare.step(n);
            is_quiet(bare)
        }
    }
}

/// The same of a condition on a step of this processor.
fn step_doing<A: Allocator>(bare: &mut BareMachine<A>, n: PpNo, does: &ProcessorCondition) -> bool
    ensures stepped { (m : MachineState) → StandsFor bare.old m → StandsFor bare.new (stepped n m) }
    ensures does { (m : MachineState) → StandsFor bare.old m
        → IsTrue result ↔ Does does.now (record { processor = n; before = m }) }
{
    match does {
        ProcessorCondition::StandsAt(place) => {
            let _progress = bare.step(n);
            let pp = bare.pp(n);
            pp.state().is_running() && pp.block().is_none() && pp.p().get() == place.get()
        }
        ProcessorCondition::Stores(place, word) => step_storing(bare, n, *place, word),
        ProcessorCondition::Stops => {
            let was_running = bare.pp(n).state().is_running();
            let _progress = bare.step(n);
            was_running && matches!(bare.pp(n).state(), PpState::Stopped)
        }
        ProcessorCondition::Faults => {
            let was_running = bare.pp(n).state().is_running();
            let _progress = bare.step(n);
            was_running && matches!(bare.pp(n).state(), PpState::Fault(_))
        }
        ProcessorCondition::IsHeld => matches!(bare.step(n), Progress::Held(_)),
    }
}

/// The same of a condition that it changes a word of its processor.
fn step_storing<A: Allocator>(
    bare: &mut BareMachine<A>,
    n: PpNo,
    place: Word12,
    word: &Option<Word12>,
) -> bool
    ensures stepped { (m : MachineState) → StandsFor bare.old m → StandsFor bare.new (stepped n m) }
    ensures stores { (m : MachineState) → StandsFor bare.old m → IsTrue result
        ↔ Does (ProcessorCondition.Stores place word.now) (record { processor = n; before = m }) }
{
    let old = bare.pp(n).get(place).get();
    let _progress = bare.step(n);
    let new = bare.pp(n).get(place).get();
    changes_to(
        word.map(|word| u64::from(word.get())),
        u64::from(old),
        u64::from(new),
    )
}

/// The same of a condition that it changes a central word.
fn step_writing<A: Allocator>(
    bare: &mut BareMachine<A>,
    n: PpNo,
    address: Word18,
    word: &Option<Word60>,
) -> bool
    ensures stepped { (m : MachineState) → StandsFor bare.old m → StandsFor bare.new (stepped n m) }
    ensures writes { (m : MachineState) → StandsFor bare.old m → IsTrue result
        ↔ Meets (Condition.Central address word.now) (record { processor = n; before = m }) }
{
    let old = central_word(bare.central(), address);
    let _progress = bare.step(n);
    let new = central_word(bare.central(), address);
    changes_to(word.map(|word| word.get()), old, new)
}

/// Whether a word differs from the old one, and is the one that is given, if one is.
fn changes_to(given: Option<u64>, old: u64, new: u64) -> bool
    ensures { IsTrue result ↔ ChangesTo given old new }
{
    new != old && is_given(given, new)
}

/// Whether a word is the one that is given, if one is.
fn is_given(given: Option<u64>, word: u64) -> bool
    ensures { IsTrue result ↔ IsGiven given word }
{
    match given {
        Some(given) => word == given,
        None => true,
    }
}

/// Whether the next step of a processor makes an event of this form on this channel.
fn makes_on<A: Allocator>(
    bare: &BareMachine<A>,
    n: PpNo,
    channel: ChannelNo,
    form: &EventForm,
) -> bool
    ensures { (m : MachineState) → StandsFor bare.now m → IsTrue result
        ↔ Meets (Condition.Channel channel form.now) (record { processor = n; before = m }) }
{
    let Need::Channel(c, op) = bare.pp(n).wants() else {
        return false;
    };
    if c.get() != channel.get() {
        return false;
    }
    match bare.channel(c).next_event(&op) {
        Some(event) => has_form(form, &event),
        None => false,
    }
}

/// Whether the next step of a processor disconnects a full channel.
fn loses_a_word<A: Allocator>(bare: &BareMachine<A>, n: PpNo) -> bool
    ensures { (m : MachineState) → StandsFor bare.now m
        → IsTrue result ↔ Meets Condition.Lost (record { processor = n; before = m }) }
{
    let Need::Channel(c, op) = bare.pp(n).wants() else {
        return false;
    };
    let state = bare.channel(c);
    match state.next_event(&op) {
        Some(event) => is_disconnect(&event) && state.flags.full,
        None => false,
    }
}

fn is_disconnect(event: &Event) -> bool
    ensures { IsTrue result ↔ (event.now ≡ Event.Disconnect) }
{
    matches!(event, Event::Disconnect)
}

/// Whether an event has a form.
fn has_form(form: &EventForm, event: &Event) -> bool
    ensures { IsTrue result ↔ HasForm form.now event.now }
{
    match (form, event) {
        (EventForm::Any, _)
        | (EventForm::Activate, Event::Activate)
        | (EventForm::Disconnect, Event::Disconnect) => true,
        (EventForm::Put(given), Event::Put(word))
        | (EventForm::Take(given), Event::Take(word))
        | (EventForm::Function(given), Event::Function(word)) => {
            is_given(
                given.map(|given| u64::from(given.get())),
                u64::from(word.get()),
            )
        }
        _ => false,
    }
}
