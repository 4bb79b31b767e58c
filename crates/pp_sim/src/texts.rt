//! The texts of a deck, each with the call that writes it.

pub(crate) mod check_text;
pub(crate) mod deck_text;
pub(crate) mod lint_text;
pub(crate) mod test_text;
pub(crate) mod threads_text;
pub(crate) mod work_text;

ghost use Rattle.std.specs.Prelude.{◌≡◌, IfErr, IfOk, Ok, OnOk, min};
ghost use Rattle.pp_command.specs.declared.text_of.TextOf.TheVariants.{Run};
ghost use Rattle.pp_deck.specs.DeckMeaning.{deck_meaning};
ghost use Rattle.pp_draw.specs.DrawingText.{drawing_of_run};
ghost use Rattle.pp_endings.specs.EndingsText.{IsEndingsText};
ghost use Rattle.pp_machine.specs.Headline.{HoldsOnEachChannel};
ghost use Rattle.pp_machine.specs.Run.{run, run_order};
ghost use Rattle.pp_run.specs.RunSteps.{run_steps};
ghost use Rattle.pp_run.specs.StepCounts.{each_step_counts};
ghost use Rattle.pp_sessions.specs.SessionsText.{sessions_after};
ghost use Rattle.pp_sim.specs.TestAnswer.{HasTurns};
ghost use Rattle.pp_sim.specs.TextAnswer.{AnswersLoaded, AnswersLoadedUnless, answer_to, answer_to_report};
ghost use Rattle.pp_sim.specs.TextOf.{IsDumpText, IsEndsText, IsRacesText, IsStepsText, IsTextAfter, IsTextOf, IsTextUntil, PreventsDump, obstacle, obstacle_until};
ghost use Rattle.pp_sim.specs.declared.text_fault.TextFault.TheVariants.{Memory};
ghost use Rattle.pp_state.specs.StateText.{state_after};

use crate::deck_bytes::DeckBytes;
use crate::{Schedule, TextFault};
use pp_command::{ChosenSteps, TextOf, View};
use pp_condition::steps_until;
use pp_deck::Deck;
use pp_draw::{run_seeing_steps, write_drawing};
use pp_endings::text_of_endings;
use pp_ends::{find_ending, find_loops, write_ends};
use pp_listing::{DumpFault, order_left, write_dump, write_listing};
use pp_machine::{Machine, PROCESSORS, PpNo};
use pp_numbers::Window;
use pp_races::write_races;
use pp_run::{BareMachine, Order, StepCounts};
use pp_sessions::{run_counting_steps, write_sessions};
use pp_state::{write_central, write_memory, write_state};
use pp_steps::{Choice, write_steps, write_steps_where};
use pp_text::{ReportFault, WriteFault, write_text, write_whole};
use std::alloc::Allocator;
use std::io::Write;

/// Writes this text of a deck that is loaded, of a run by this schedule, whose steps are counted.
pub(crate) fn write_text_until<A: Allocator + Copy, W: Write>(
    alloc: A,
    deck: &DeckBytes,
    loaded: &mut Deck<A>,
    writer: &mut W,
    schedule: &Schedule,
    text: &TextOf,
) -> Result<(), TextFault>
    requires { deck_meaning deck.now.profile deck.now.bytes.now
        ≡ Ok (record { machine = loaded.old.machine; named = loaded.old.named }) }
    ensures { AnswersLoadedUnless loaded.old.machine loaded.old.named
        (obstacle_until schedule.now.first.now schedule.now.until text.now)
        (IsTextUntil schedule.now.first.now schedule.now.until text.now)
        result (W.contents writer.old) (W.contents writer.new) }
{
    let first = schedule.first;
    if schedule.until.is_none() {
        return write_text_of(alloc, deck, loaded, writer, first, text);
    }
    let turns = turns_of_run(alloc, loaded, schedule, text.turns())?;
    write_text_of(alloc, deck, loaded, writer, first, &text.with_turns(turns))
}

/// How many turns a run has, which goes on until then.
pub(crate) fn turns_of_run<A: Allocator + Copy>(
    alloc: A,
    loaded: &Deck<A>,
    schedule: &Schedule,
    turns: u32,
) -> Result<u32, TextFault>
    ensures ok { IfOk result (HasTurns schedule.now.first.now schedule.now.until turns
        (record { machine = loaded.now.machine; named = loaded.now.named })) }
    ensures fault { IfErr result (λ fault. fault ≡ Memory) }
{
    let Some(until) = &schedule.until else {
        return Ok(turns);
    };
    let order = Order::of_run(alloc, schedule.first, loaded.machine.profile(), turns)?;
    Ok(steps_until(alloc, &loaded.machine, &order, until)?)
}

/// Writes this text of a deck that is loaded, in whose run these processors come first.
fn write_text_of<A: Allocator + Copy, W: Write>(
    alloc: A,
    deck: &DeckBytes,
    loaded: &mut Deck<A>,
    writer: &mut W,
    first: &[PpNo],
    text: &TextOf,
) -> Result<(), TextFault>
    requires { deck_meaning deck.now.profile deck.now.bytes.now
        ≡ Ok (record { machine = loaded.old.machine; named = loaded.old.named }) }
    ensures { AnswersLoadedUnless loaded.old.machine loaded.old.named
        (obstacle first.now text.now) (IsTextOf first.now text.now) result
        (W.contents writer.old) (W.contents writer.new) }
{
    match text {
        TextOf::List => answer_to(write_listing(writer, loaded)),
        TextOf::Orders(states) => write_endings(alloc, deck, loaded, writer, *states),
        TextOf::Run { turns, view } => write_view(alloc, loaded, writer, first, *turns, view),
    }
}

/// Writes this view of the run of a deck that is loaded, in which these processors come first.
fn write_view<A: Allocator + Copy, W: Write>(
    alloc: A,
    loaded: &mut Deck<A>,
    writer: &mut W,
    first: &[PpNo],
    turns: u32,
    view: &View,
) -> Result<(), TextFault>
    ensures { AnswersLoadedUnless loaded.old.machine loaded.old.named
        (obstacle first.now (Run turns view.now)) (IsTextOf first.now (Run turns view.now)) result
        (W.contents writer.old) (W.contents writer.new) }
{
    match view {
        View::Barrel => {
            loaded.machine.run_in_order(first, turns)?;
            answer_to(write_text(writer, &loaded.machine, &loaded.named))
        }
        View::Dump => write_dump_after(alloc, loaded, writer, first, turns),
        View::State => write_state_after(alloc, loaded, writer, first, turns),
        View::Sessions { words } => {
            write_sessions_after(alloc, loaded, writer, first, turns, *words)
        }
        View::Races => write_raced(alloc, loaded, writer, first, turns),
        View::Ends => write_ends_after(alloc, loaded, writer, turns),
        View::Memory { processor, bounds } => {
            loaded.machine.run_in_order(first, turns)?;
            answer_to(write_memory(writer, loaded.machine.pp(*processor), *bounds))
        }
        View::Central(bounds) => {
            loaded.machine.run_in_order(first, turns)?;
            answer_to(write_central(writer, loaded.machine.central(), *bounds))
        }
        View::Steps(chosen) => write_chosen_steps(alloc, loaded, writer, first, turns, chosen),
        View::Draw { from } => write_drawing_from(alloc, loaded, writer, first, turns, *from),
    }
}

/// The dump names what is left of the order, to go on with.
fn write_dump_after<A: Allocator + Copy, W: Write>(
    alloc: A,
    loaded: &mut Deck<A>,
    writer: &mut W,
    first: &[PpNo],
    turns: u32,
) -> Result<(), TextFault>
    ensures { AnswersLoadedUnless loaded.old.machine loaded.old.named
        (PreventsDump first.now turns) (IsDumpText first.now turns) result
        (W.contents writer.old) (W.contents writer.new) }
{
    let left = order_left(alloc, first, loaded.machine.profile(), turns)?;
    loaded.machine.run_in_order(first, turns)?;
    match write_dump(writer, loaded, &left) {
        Ok(()) => Ok(()),
        Err(DumpFault::NotBetweenPrograms(going_on)) => {
            Err(TextFault::NotBetweenPrograms(going_on))
        }
        Err(DumpFault::Write) => Err(TextFault::Write),
    }
}

/// What stands for the machine as it was loaded is compared with.
fn write_state_after<A: Allocator + Copy, W: Write>(
    alloc: A,
    loaded: &mut Deck<A>,
    writer: &mut W,
    first: &[PpNo],
    turns: u32,
) -> Result<(), TextFault>
    ensures { AnswersLoaded loaded.old.machine loaded.old.named
        (IsTextAfter first.now turns state_after) result
        (W.contents writer.old) (W.contents writer.new) }
{
    let shown = loaded.in_use();
    let before = BareMachine::of(alloc, &loaded.machine)?;
    let counts = counts_of_run(alloc, &mut loaded.machine, first, turns)?;
    answer_to(write_state(writer, &shown, &before, &loaded.machine, &counts))
}

/// The sessions on the channels, and the steps that each processor made.
fn write_sessions_after<A: Allocator + Copy, W: Write>(
    alloc: A,
    loaded: &mut Deck<A>,
    writer: &mut W,
    first: &[PpNo],
    turns: u32,
    words: bool,
) -> Result<(), TextFault>
    ensures { AnswersLoaded loaded.old.machine loaded.old.named
        (IsTextAfter first.now turns (sessions_after words)) result
        (W.contents writer.old) (W.contents writer.new) }
{
    let shown = loaded.in_use();
    let counts = counts_of_run(alloc, &mut loaded.machine, first, turns)?;
    answer_to(write_sessions(writer, &loaded.machine, &shown, &counts, words))
}

/// Makes the steps of a run, and counts those of each processor.
fn counts_of_run<A: Allocator + Copy>(
    alloc: A,
    machine: &mut Machine<A>,
    first: &[PpNo],
    turns: u32,
) -> Result<[StepCounts; PROCESSORS], TextFault>
    ensures run { OnOk result
        (machine.new ≡ run (run_order first.now machine.old.profile turns) machine.old) }
    ensures headline { OnOk result (HoldsOnEachChannel machine.new) }
    ensures counts { IfOk result (λ counts. counts ≡ each_step_counts
        (run_steps (run_order first.now machine.old.profile turns) machine.old)) }
    ensures fault { IfErr result (λ fault. fault ≡ Memory) }
{
    let order = Order::of_run(alloc, first, machine.profile(), turns)?;
    Ok(run_counting_steps(machine, &order)?)
}

/// The drawing shows the turns from `from` on, to the end of the run.
fn write_drawing_from<A: Allocator + Copy, W: Write>(
    alloc: A,
    loaded: &mut Deck<A>,
    writer: &mut W,
    first: &[PpNo],
    turns: u32,
    from: u32,
) -> Result<(), TextFault>
    ensures { AnswersLoaded loaded.old.machine loaded.old.named
        (IsTextAfter first.now turns
        (drawing_of_run (record { from = min from turns; to = turns }))) result
        (W.contents writer.old) (W.contents writer.new) }
{
    let shown = loaded.in_use();
    let order = Order::of_run(alloc, first, loaded.machine.profile(), turns)?;
    let from = from.min(turns);
    let window = Window { from, to: turns };
    let steps = run_seeing_steps(alloc, &mut loaded.machine, &order, window)?;
    answer_to(write_drawing(writer, &loaded.machine, &shown, &steps, window))
}

/// The machine runs to the turn that the ending names.
fn write_ends_after<A: Allocator + Copy, W: Write>(
    alloc: A,
    loaded: &mut Deck<A>,
    writer: &mut W,
    turns: u32,
) -> Result<(), TextFault>
    ensures { AnswersLoaded loaded.old.machine loaded.old.named (IsEndsText turns) result
        (W.contents writer.old) (W.contents writer.new) }
{
    let shown = loaded.in_use();
    let ending = find_ending(alloc, &loaded.machine, turns)?;
    let loops = find_loops(alloc, &loaded.machine, ending)?;
    loaded.machine.run_barrel(ending.turn(turns))?;
    answer_to(write_ends(writer, &shown, ending, turns, &loaded.machine, &loops))
}

/// The deck is loaded once more for each ending, to make the steps that lead into it.
fn write_endings<A: Allocator + Copy, W: Write>(
    alloc: A,
    deck: &DeckBytes,
    loaded: &Deck<A>,
    writer: &mut W,
    states: u32,
) -> Result<(), TextFault>
    requires { deck_meaning deck.now.profile deck.now.bytes.now
        ≡ Ok (record { machine = loaded.now.machine; named = loaded.now.named }) }
    ensures { AnswersLoaded loaded.now.machine loaded.now.named IsEndingsText result
        (W.contents writer.old) (W.contents writer.new) }
{
    let text = text_of_endings(alloc, deck.profile, deck.bytes, loaded, states)?;
    answer_to(write_whole(writer, text.as_slice()))
}

fn write_raced<A: Allocator + Copy, W: Write>(
    alloc: A,
    loaded: &mut Deck<A>,
    writer: &mut W,
    first: &[PpNo],
    turns: u32,
) -> Result<(), TextFault>
    ensures { AnswersLoaded loaded.old.machine loaded.old.named (IsRacesText first.now turns) result
        (W.contents writer.old) (W.contents writer.new) }
{
    let order = Order::of_run(alloc, first, loaded.machine.profile(), turns)?;
    loaded.machine.is_sound();
    answer_to_report(write_races(alloc, writer, &mut loaded.machine, &order))
}

fn write_chosen_steps<A: Allocator + Copy, W: Write>(
    alloc: A,
    loaded: &Deck<A>,
    writer: &mut W,
    first: &[PpNo],
    turns: u32,
    chosen: &ChosenSteps,
) -> Result<(), TextFault>
    ensures { AnswersLoaded loaded.now.machine loaded.now.named
        (IsStepsText first.now turns chosen.now) result
        (W.contents writer.old) (W.contents writer.new) }
{
    let choice = Choice {
        processors: chosen.processors.unwrap_or(loaded.in_use()),
        channels: chosen.channels,
        from: chosen.from,
        to: chosen.to,
    };
    let order = Order::of_run(alloc, first, loaded.machine.profile(), turns)?;
    let machine = &loaded.machine;
    match &chosen.condition {
        Some(condition) => answer_to_report(write_steps_where(
            alloc, writer, machine, &choice, condition, &order,
        )),
        None => answer_to_report(write_steps(alloc, writer, machine, &choice, &order)),
    }
}

/// The answer after a text was written, or after the writer failed.
fn answer_to(written: Result<(), WriteFault>) -> Result<(), TextFault>
    ensures { result ≡ answer_to written }
{
    Ok(written?)
}

/// The same of the text of a report.
pub(crate) fn answer_to_report(written: Result<(), ReportFault>) -> Result<(), TextFault>
    ensures { result ≡ answer_to_report written }
{
    Ok(written?)
}
