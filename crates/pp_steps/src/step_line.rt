//! The line of a step.

ghost use Rattle.std.specs.Prelude.{◌≡◌, ◌+◌, ◌<◌, ◌≤◌, ◌^◌, ◌++◌, codes};
ghost use Rattle.std.specs.List.{flat_map, range_with_len};
ghost use Rattle.pp_word.specs.Address.{place_count};
ghost use Rattle.pp_machine.specs.MachineState.{MachineState};
ghost use Rattle.pp_machine.specs.MachineStep.{central_after, stepped};
ghost use Rattle.pp_processor.specs.NeedAndEffect.{processor_after};
ghost use Rattle.pp_processor.specs.declared.answer.Answer.{Answer};
ghost use Rattle.pp_word.specs.Numeral.{digits, octal};
ghost use Rattle.pp_text.specs.PrintedText.{event_text, padded};
ghost use Rattle.pp_text.specs.TextWriter.{Prints};
ghost use Rattle.pp_run.specs.BareMachine.{StandsFor};
ghost use Rattle.pp_steps.specs.StepLine.{centrals_text, channel_text, heading, held_line, place_text, places_text, step_line, words_text};
ghost use Rattle.pp_steps.specs.StepsText.{kind_text};
ghost use Rattle.pp_processor.specs.Stores.{KeepsOthers};

use crate::cursor::LineKind;
use pp_channel::Event;
use pp_machine::{Block, Central, Need, Pp, PpNo};
use pp_run::BareMachine;
use pp_text::{
    TextWriter, central_word, channel_name, decimal6, octal2, octal4, octal6, print_flags_text,
    print_held_text, print_octal, print_state_text, print_upper_digits, running_field,
};
use pp_word::{PLACES, Word12, Word18, decode, next};
use std::alloc::Allocator;
use std::io::Write;

/// Prints a line of this kind of a step of a processor from one machine to another.
pub(crate) fn print_line<A: Allocator, W: Write>(
    text: &mut TextWriter<W>,
    n: PpNo,
    before: &BareMachine<A>,
    after: &BareMachine<A>,
    kind: LineKind,
)
    ensures { (m : MachineState) → StandsFor before.now m → StandsFor after.now (stepped n m)
        → Prints W.contents text.old text.new (kind_text kind n m) }
{
    match kind {
        LineKind::NoLine => {}
        LineKind::OneStep => print_step_line(text, n, before, after),
        LineKind::HeldSteps(count) => print_held_line(text, n, before, count),
    }
}

/// Prints the line of a step of a processor from one machine to another:
/// `000020 PP00 0102 7205       OAN 05        A=000001 CH05 PUT 0001` and a line feed.
fn print_step_line<A: Allocator, W: Write>(
    text: &mut TextWriter<W>,
    n: PpNo,
    before: &BareMachine<A>,
    after: &BareMachine<A>,
)
    ensures { (m : MachineState) → StandsFor before.now m → StandsFor after.now (stepped n m)
        → Prints W.contents text.old text.new (step_line n m (stepped n m)) }
{
    let old = before.pp(n);
    let new = after.pp(n);
    let need = old.wants();
    print_heading(text, before.turns(), n, old, new.a());
    print_places(text, old, new, old.first_stored());
    print_central(text, &need, before.central(), after.central());
    print_channel(text, &need, before);
    if !new.state().is_running() {
        text.print(b" ");
        print_state_text(text, new.state());
    }
    text.print(b"\n");
}

/// Prints the line of held steps in a row of a processor, and their number:
/// `000031 PP01 0201            IAM 05        A=000004 HELD CH05 ACTIVE EMPTY x1` and a line feed.
fn print_held_line<A: Allocator, W: Write>(
    text: &mut TextWriter<W>,
    n: PpNo,
    machine: &BareMachine<A>,
    count: u32,
)
    ensures { (m : MachineState) → StandsFor machine.now m
        → Prints W.contents text.old text.new (held_line n m count) }
{
    let pp = machine.pp(n);
    print_heading(text, machine.turns(), n, pp, pp.a());
    if let Need::Channel(c, _) = pp.wants() {
        print_held_text(text, c, machine.channel(c).flags, count);
    }
    text.print(b"\n");
}

/// Prints `000031 PP01 0201 7105 0300  IAM 0300,05   A=000004`, with this value of A.
fn print_heading<W: Write>(text: &mut TextWriter<W>, turn: u64, n: PpNo, pp: &Pp, a: Word18)
    ensures { Prints W.contents text.old text.new (heading turn n pp.now a) }
{
    let place = pp.p();
    let word = pp.get(place);
    let m = pp.get(next(place));
    let lower = print_upper_digits(text, turn);
    text.print(&turn_and_place(lower, n, place));
    text.print(&words_field(pp.block(), word, m));
    text.print(&running_field(pp.block(), place, word, m));
    text.print(b" A=");
    text.print(&octal6(a.get()));
}

/// `000031 PP01 0201 `
fn turn_and_place(turn: u32, n: PpNo, place: Word12) -> [u8; 17]
    requires { turn < 10 ^ 6 }
    ensures { result ≡ digits 10 6 turn ++ codes " PP" ++ octal 2 n ++ codes " " ++ octal 4 place
        ++ codes " " }
{
    let [t0, t1, t2, t3, t4, t5] = decimal6(turn);
    let [n0, n1] = octal2(n.get());
    let [p0, p1, p2, p3] = octal4(place.get());
    [
        t0, t1, t2, t3, t4, t5, b' ', b'P', b'P', n0, n1, b' ', p0, p1, p2, p3, b' ',
    ]
}

/// `7105 0300  `, or `1405       ` where the instruction has one word: a word, the next, and two
/// spaces. A block in progress reads none: spaces alone.
fn words_field(block: Option<Block>, word: Word12, m: Word12) -> [u8; 11]
    ensures { result ≡ padded 9 (words_text block word m) ++ codes "  " }
{
    if block.is_some() {
        return *b"           ";
    }
    let [w0, w1, w2, w3] = octal4(word.get());
    if decode(word).0.is_long() {
        let [m0, m1, m2, m3] = octal4(m.get());
        [w0, w1, w2, w3, b' ', m0, m1, m2, m3, b' ', b' ']
    } else {
        [w0, w1, w2, w3, b' ', b' ', b' ', b' ', b' ', b' ', b' ']
    }
}

/// Prints ` (0300)=0001` for each of five places from one on whose word differs, in order of place.
fn print_places<W: Write>(text: &mut TextWriter<W>, old: &Pp, new: &Pp, first: Word12)
    ensures { (answer : Answer) → KeepsOthers old.now first
        → new.now ≡ processor_after old.now answer
        → Prints W.contents text.old text.new (places_text old.now.memory new.now.memory) }
{
    let first = u32::from(first.get());
    if first + 5 <= PLACES {
        print_range(text, old, new, first, 5);
    } else {
        print_range(text, old, new, 0, first + 5 - PLACES);
        print_range(text, old, new, first, PLACES - first);
    }
}

/// The same for `count` places from `first` on.
fn print_range<W: Write>(text: &mut TextWriter<W>, old: &Pp, new: &Pp, first: u32, count: u32)
    requires { first + count ≤ place_count }
    ensures { Prints W.contents text.old text.new
        (flat_map (place_text old.now.memory new.now.memory) (range_with_len first count)) }
{
    for i in 0..count {
        let place = Word12::truncated(first + i);
        let word = new.get(place);
        if old.get(place).get() != word.get() {
            let [p0, p1, p2, p3] = octal4(place.get());
            let [w0, w1, w2, w3] = octal4(word.get());
            text.print(&[b' ', b'(', p0, p1, p2, p3, b')', b'=', w0, w1, w2, w3]);
        }
    }
}

/// Prints ` CM 000100=00060007001000110012`, where the step wrote a central word that differs.
fn print_central<A: Allocator, W: Write>(
    text: &mut TextWriter<W>,
    need: &Need,
    before: &Central<A>,
    after: &Central<A>,
)
    ensures { (m : MachineState) → before.now ≡ m.central → after.now ≡ central_after need.now m
        → Prints W.contents text.old text.new (centrals_text before.now after.now) }
{
    let Need::Write(address, _) = need else {
        return;
    };
    let word = central_word(after, *address);
    if word == central_word(before, *address) {
        return;
    }
    text.print(b" CM ");
    text.print(&octal6(address.get()));
    text.print(b"=");
    print_octal(text, 20, word);
}

/// Prints ` CH05 PUT 0007`, or without an event ` CH05 ACTIVE EMPTY`, where a channel was needed.
fn print_channel<A: Allocator, W: Write>(
    text: &mut TextWriter<W>,
    need: &Need,
    before: &BareMachine<A>,
)
    ensures { (m : MachineState) → StandsFor before.now m
        → Prints W.contents text.old text.new (channel_text need.now m) }
{
    if let Need::Channel(c, op) = need {
        let state = before.channel(*c);
        text.print(b" ");
        text.print(&channel_name(*c));
        text.print(b" ");
        match state.next_event(op) {
            Some(event) => print_event(text, event),
            None => print_flags_text(text, state.flags),
        }
    }
}

/// Prints `PUT 0007`.
fn print_event<W: Write>(text: &mut TextWriter<W>, event: Event)
    ensures { Prints W.contents text.old text.new (event_text event) }
{
    match event {
        Event::Activate => text.print(b"ACN"),
        Event::Disconnect => text.print(b"DCN"),
        Event::Put(word) => text.print(&name_and_word(*b"PUT", word)),
        Event::Take(word) => text.print(&name_and_word(*b"TAK", word)),
        Event::Function(word) => text.print(&name_and_word(*b"FNC", word)),
    }
}

/// `PUT 0007`
fn name_and_word(name: [u8; 3], word: Word12) -> [u8; 8]
    ensures { result ≡ name ++ codes " " ++ octal 4 word }
{
    let [n0, n1, n2] = name;
    let [w0, w1, w2, w3] = octal4(word.get());
    [n0, n1, n2, b' ', w0, w1, w2, w3]
}
