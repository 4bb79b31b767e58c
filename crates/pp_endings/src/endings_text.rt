ghost use Rattle.std.specs.Prelude.{◌≡◌, ◌++◌, length, map, not, IfOk, Ok, OnOk};
ghost use Rattle.std.specs.Io.KnownBytes.{Appends};
ghost use Rattle.pp_numbers.specs.PpNo.{is_named};
ghost use Rattle.pp_machine.specs.MachineState.{processor_of};
ghost use Rattle.pp_machine.specs.Run.{run};
ghost use Rattle.pp_run.specs.BareMachine.{StandsFor};
ghost use Rattle.pp_deck.specs.DeckMeaning.{LoadedDeck, deck_meaning};
ghost use Rattle.pp_text.specs.PrintedText.{each_below, processor_line};
ghost use Rattle.pp_text.specs.Standing.{standing};
ghost use Rattle.pp_text.specs.TextWriter.{Prints};
ghost use Rattle.pp_orders.specs.Found.{going_in, orders_of};
ghost use Rattle.pp_endings.specs.EndingsText.{IsEndingsText, ending_at, ending_text, endings_text, going_text, head_line, order_line};

use pp_channel::Memory;
use pp_deck::{Deck, read_deck};
use pp_machine::{Machine, PROCESSORS, PpNo, Profile};
use pp_orders::{Ending, Endings, find_endings};
use pp_run::BareMachine;
use pp_state::print_changes;
use pp_text::{
    Lines, TextWriter, print_each_named, print_order, print_short_decimal, print_standing,
    processor_heading,
};
use std::alloc::Allocator;
use std::io::Write;

/// The text of all endings of a deck, over every order of its steps: how many there are, and of
/// each an order of steps that leads into it, the processors in use after this order, each with
/// ` GOES ON` if it does within the ending, the words that differ from the load, and the channels
/// that have a history. At most `states` standings (decimal) are kept: where more would have to be,
/// the first line ends with ` OR MORE`, and some endings may be missing. The deck is that of these
/// bytes, which are read again for each ending.
pub fn text_of_endings<A: Allocator + Copy>(
    alloc: A,
    profile: Profile,
    bytes: &[u8],
    load: &Deck<A>,
    states: u32,
) -> Result<Vec<u8, A>, Memory>
    requires { deck_meaning profile bytes.now
        ≡ Ok (record { machine = load.now.machine; named = load.now.named }) }
    ensures { IfOk result (λ text. IsEndingsText
        (record { machine = load.now.machine; named = load.now.named }) text.items) }
{
    let found = find_endings(alloc, &load.machine, states)?;
    load.machine.is_sound();
    let before = BareMachine::of(alloc, &load.machine)?;
    let source = Source {
        alloc,
        profile,
        bytes,
        load,
        before: &before,
    };
    let mut text = Vec::new(alloc);
    write_found(&mut text, &source, &found)?;
    Ok(text)
}

/// What each ending is shown from: a deck, by its bytes and loaded, and its machine at the load.
#[derive(Drop)]
struct Source<'a, A: Allocator> {
    alloc: A,
    profile: Profile,
    bytes: &'a [u8],
    load: &'a Deck<A>,
    before: &'a BareMachine<A>,
}

/// Writes the text of the endings that were found.
fn write_found<W: Write, A: Allocator + Copy>(
    writer: &mut W,
    source: &Source<A>,
    found: &Endings<A>,
) -> Result<(), Memory>
    requires meant { deck_meaning source.now.profile source.now.bytes.now
        ≡ Ok (record { machine = source.now.load.now.machine; named = source.now.load.now.named }) }
    requires stands { StandsFor source.now.before.now source.now.load.now.machine }
    ensures { OnOk result (Appends (W.contents writer.old) (W.contents writer.new) (endings_text
        (record { machine = source.now.load.now.machine; named = source.now.load.now.named })
        (orders_of found.now) (going_in found.now) (not found.now.are_all))) }
{
    let mut text = TextWriter::new(writer);
    let endings = found.endings.as_slice();
    print_head(&mut text, endings.len(), !found.are_all);
    print_endings(&mut text, source, endings)?;
    text.finish().map_err(|_| Memory)
}

/// Prints `ENDINGS 2` or `ENDINGS 2 OR MORE`.
fn print_head<W: Write>(text: &mut TextWriter<W>, count: usize, more: bool)
    ensures { Prints W.contents text.old text.new (head_line count more) }
{
    text.print(b"ENDINGS ");
    print_short_decimal(text, count as u64);
    if more {
        text.print(b" OR MORE");
    }
    text.print(b"\n");
}

/// Prints each of some endings.
fn print_endings<W: Write, A: Allocator + Copy>(
    text: &mut TextWriter<W>,
    source: &Source<A>,
    endings: &[Ending<A>],
) -> Result<(), Memory>
    requires meant { deck_meaning source.now.profile source.now.bytes.now
        ≡ Ok (record { machine = source.now.load.now.machine; named = source.now.load.now.named }) }
    requires stands { StandsFor source.now.before.now source.now.load.now.machine }
    ensures { OnOk result (Prints W.contents text.old text.new (each_below (length endings.now)
        (ending_at (record {
          machine = source.now.load.now.machine;
          named = source.now.load.now.named;
        })
        (map (λ ending. ending.order.items) endings.now)
        (map (λ ending. ending.goes_on) endings.now)))) }
{
    for ending in endings {
        print_ending(text, source, ending)?;
    }
    Ok(())
}

/// Prints an ending.
#[tactic(auto, unfolding(crate::specs::EndingsText::ending_text))]
fn print_ending<W: Write, A: Allocator + Copy>(
    text: &mut TextWriter<W>,
    source: &Source<A>,
    ending: &Ending<A>,
) -> Result<(), Memory>
    requires meant { deck_meaning source.now.profile source.now.bytes.now
        ≡ Ok (record { machine = source.now.load.now.machine; named = source.now.load.now.named }) }
    requires stands { StandsFor source.now.before.now source.now.load.now.machine }
    ensures { OnOk result (Prints W.contents text.old text.new (ending_text
        (record { machine = source.now.load.now.machine; named = source.now.load.now.named })
        ending.now.order.items ending.now.goes_on)) }
{
    let after = load_after(
        source.alloc,
        source.profile,
        source.bytes,
        ending.order.as_slice(),
    )?;
    print_order_line(text, ending.order.as_slice());
    let lines = GoingLines {
        machine: &after.machine,
        going: &ending.goes_on,
    };
    print_each_named(text, &source.load.in_use(), &lines);
    print_changes(text, source.before, &after.machine);
    Ok(())
}

/// The deck of these bytes, after the steps of an order.
pub fn load_after<A: Allocator + Copy>(
    alloc: A,
    profile: Profile,
    bytes: &[u8],
    order: &[PpNo],
) -> Result<Deck<A>, Memory>
    ensures { IfOk result (λ after. (deck : LoadedDeck) → deck_meaning profile bytes.now ≡ Ok deck
        → after.machine ≡ run order.now deck.machine) }
{
    let Ok(mut deck) = read_deck(alloc, profile, bytes) else {
        return Err(Memory);
    };
    match deck.machine.run_turns(order) {
        Ok(()) => Ok(deck),
        Err(_) => Err(Memory),
    }
}

/// Prints `ORDER 0:3,1` and a line feed.
pub fn print_order_line<W: Write>(text: &mut TextWriter<W>, order: &[PpNo])
    ensures { Prints W.contents text.old text.new (order_line order.now) }
{
    text.print(b"ORDER");
    if !order.is_empty() {
        text.print(b" ");
        print_order(text, order);
    }
    text.print(b"\n");
}

/// The lines of processors: `PP01 P=0101 A=000001 RUNNING IJM 0100,02 GOES ON` and a line feed.
#[derive(Drop)]
struct GoingLines<'a, A: Allocator> {
    machine: &'a Machine<A>,
    going: &'a [bool; PROCESSORS],
}

impl<'a, A: Allocator, W: Write> Lines<PpNo, W> for GoingLines<'a, A> {
    ghost text_of = { λ lines n. processor_line n (processor_of n lines.machine.now)
        (standing n lines.machine.now 0 ++ going_text (is_named lines.going.now n)) };

    fn print(&self, text: &mut TextWriter<W>, n: &PpNo) {
        text.print(&processor_heading(*n, self.machine.pp(*n)));
        print_standing(text, self.machine, *n, 0);
        print_going(text, self.going, *n);
        text.print(b"\n");
    }
}

/// Prints ` GOES ON`, of a processor that does.
fn print_going<W: Write>(text: &mut TextWriter<W>, going: &[bool; PROCESSORS], n: PpNo)
    ensures { Prints W.contents text.old text.new (going_text (is_named going.now n)) }
{
    if going[n.index()] {
        text.print(b" GOES ON");
    }
}
