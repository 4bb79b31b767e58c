//! How a machine stands after its run, in lines.

ghost use Rattle.std.specs.Prelude.{◌≡◌, ◌++◌, codes, length};
ghost use Rattle.std.specs.List.{flat_map};
ghost use Rattle.pp_word.specs.Address.{place_count};
ghost use Rattle.pp_word.specs.Numeral.{octal};
ghost use Rattle.pp_numbers.specs.PpNo.{all_processors};
ghost use Rattle.pp_machine.specs.MachineState.{processor_of};
ghost use Rattle.pp_text.specs.PrintedText.{each_below, processor_line};
ghost use Rattle.pp_text.specs.Standing.{standing};
ghost use Rattle.pp_text.specs.TextWriter.{Prints};
ghost use Rattle.pp_text.specs.Written.{IsWritten};
ghost use Rattle.pp_state.specs.StateText.{standing_line};
ghost use Rattle.pp_test.specs.RunLines.{central_line, deed_line, ending_words, machine_lines, place_line, place_lines};

use pp_channel::ChannelNo;
use pp_ends::Ending;
use pp_listing::print_central_line;
use pp_machine::{Central, Machine, PROCESSORS, Pp, PpNo, Trace};
use pp_run::StepCounts;
use pp_text::{
    TextWriter, WriteFault, octal2, print_channels, print_event_end, print_octal,
    print_short_octal, print_standing, processor_heading,
};
use pp_word::{PLACES, Word12};
use std::alloc::Allocator;
use std::io::Write;

/// Writes the lines of a machine after its run, which ends so, by the counts of its steps.
#[tactic(auto, unfolding(crate::specs::RunLines::machine_lines))]
pub(crate) fn write_machine_lines<A: Allocator, W: Write>(
    writer: &mut W,
    shown: &[bool; PROCESSORS],
    machine: &Machine<A>,
    counts: &[StepCounts; PROCESSORS],
    ending: Ending,
) -> Result<(), WriteFault>
    ensures { IsWritten (machine_lines shown.now machine.now counts.now ending) result
        (W.contents writer.old) (W.contents writer.new) }
{
    let mut text = TextWriter::new(writer);
    print_standings(&mut text, shown, machine, counts);
    print_channels(&mut text, machine);
    print_memories(&mut text, shown, machine);
    print_central(&mut text, machine.central());
    print_deeds(&mut text, machine.events());
    print_ending_words(&mut text, ending);
    text.print(b"\n");
    text.finish()
}

/// Prints how all processors shown stand, a line each, in order of number.
fn print_standings<A: Allocator, W: Write>(
    text: &mut TextWriter<W>,
    shown: &[bool; PROCESSORS],
    machine: &Machine<A>,
    counts: &[StepCounts; PROCESSORS],
)
    ensures { Prints W.contents text.old text.new
        (flat_map (standing_line shown.now machine.now counts.now) all_processors) }
{
    for place in 0..PROCESSORS {
        print_shown_standing(text, shown, machine, counts, PpNo::at(place));
    }
}

fn print_shown_standing<A: Allocator, W: Write>(
    text: &mut TextWriter<W>,
    shown: &[bool; PROCESSORS],
    machine: &Machine<A>,
    counts: &[StepCounts; PROCESSORS],
    n: PpNo,
)
    ensures { Prints W.contents text.old text.new
        (standing_line shown.now machine.now counts.now n) }
{
    if shown[n.index()] {
        print_standing_line(text, machine, n, counts[n.index()].last_held);
    }
}

/// Prints `PP00 P=0113 A=000006 RUNNING IAN 01 HELD CH01 ACTIVE EMPTY x376` and a line feed.
fn print_standing_line<A: Allocator, W: Write>(
    text: &mut TextWriter<W>,
    machine: &Machine<A>,
    n: PpNo,
    held: u32,
)
    ensures { Prints W.contents text.old text.new
        (processor_line n (processor_of n machine.now) (standing n machine.now held)) }
{
    text.print(&processor_heading(n, machine.pp(n)));
    print_standing(text, machine, n, held);
    text.print(b"\n");
}

/// Prints the places of all processors shown, a line each.
fn print_memories<A: Allocator, W: Write>(
    text: &mut TextWriter<W>,
    shown: &[bool; PROCESSORS],
    machine: &Machine<A>,
)
    ensures { Prints W.contents text.old text.new
        (flat_map (place_lines shown.now machine.now) all_processors) }
{
    for place in 0..PROCESSORS {
        print_shown_memory(text, shown, machine, PpNo::at(place));
    }
}

fn print_shown_memory<A: Allocator, W: Write>(
    text: &mut TextWriter<W>,
    shown: &[bool; PROCESSORS],
    machine: &Machine<A>,
    n: PpNo,
)
    ensures { Prints W.contents text.old text.new (place_lines shown.now machine.now n) }
{
    if shown[n.index()] {
        print_memory(text, n, machine.pp(n));
    }
}

fn print_memory<W: Write>(text: &mut TextWriter<W>, n: PpNo, pp: &Pp)
    ensures { Prints W.contents text.old text.new (each_below place_count (place_line n pp.now)) }
{
    for place in 0..PLACES {
        print_place(text, n, pp, Word12::truncated(place));
    }
}

/// Prints `PP 0 0050 0010` and a line feed.
#[tactic(auto, unfolding(crate::specs::RunLines::place_line))]
fn print_place<W: Write>(text: &mut TextWriter<W>, n: PpNo, pp: &Pp, place: Word12)
    ensures { Prints W.contents text.old text.new (place_line n pp.now place) }
{
    text.print(b"PP ");
    print_short_octal(text, 2, u64::from(n.get()));
    text.print(b" ");
    print_octal(text, 4, u64::from(place.get()));
    text.print(b" ");
    print_octal(text, 4, u64::from(pp.get(place).get()));
    text.print(b"\n");
}

/// Prints the central words, a line each.
fn print_central<A: Allocator, W: Write>(text: &mut TextWriter<W>, central: &Central<A>)
    ensures { Prints W.contents text.old text.new
        (each_below (length central.now) (central_line central.now)) }
{
    for address in 0..central.size() {
        print_central_line(text, address, central.words()[address as usize].get());
    }
}

/// Prints the events without their turns, a line each.
fn print_deeds<W: Write>(text: &mut TextWriter<W>, events: &[Trace])
    ensures { Prints W.contents text.old text.new (flat_map deed_line events.now) }
{
    for entry in events {
        print_deed(text, entry);
    }
}

/// Prints `PP00 CH05 PUT 0007` and a line feed.
fn print_deed<W: Write>(text: &mut TextWriter<W>, entry: &Trace)
    ensures { Prints W.contents text.old text.new (deed_line entry.now) }
{
    text.print(&deed_heading(entry.pp, entry.channel));
    print_event_end(text, entry.event);
}

/// `PP00 CH05 `
fn deed_heading(n: PpNo, c: ChannelNo) -> [u8; 10]
    ensures { result ≡ codes "PP" ++ octal 2 n ++ codes " CH" ++ octal 2 c ++ codes " " }
{
    let [p0, p1] = octal2(n.get());
    let [c0, c1] = octal2(c.get());
    [b'P', b'P', p0, p1, b' ', b'C', b'H', c0, c1, b' ']
}

/// Prints `AT REST`, `STUCK`, `REPEATS` or `GOING ON`.
fn print_ending_words<W: Write>(text: &mut TextWriter<W>, ending: Ending)
    ensures { Prints W.contents text.old text.new (ending_words ending) }
{
    match ending {
        Ending::AtRest { from: _ } => text.print(b"AT REST"),
        Ending::Stuck { from: _ } => text.print(b"STUCK"),
        Ending::Repeats { from: _, every: _ } => text.print(b"REPEATS"),
        Ending::GoingOn => text.print(b"GOING ON"),
    }
}
