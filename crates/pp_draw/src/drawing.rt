ghost use Rattle.std.specs.Prelude.{◌≡◌, ◌+◌, ◌++◌, ◌≤◌, ℕ, List};
ghost use Rattle.std.specs.List.{cons_option};
ghost use Rattle.pp_numbers.specs.{ChannelNo.channel_count, PpNo.processor_count};
ghost use Rattle.pp_text.specs.{TextWriter.Prints, Written.IsWritten};
ghost use Rattle.pp_draw.specs.{Condition.phase_for, declared.condition.Phase.Phase};
ghost use Rattle.pp_draw.specs.DrawingText.{channel_lane, drawing, is_used, lanes_above, processor_lane, used_among};
ghost use Rattle.pp_draw.specs.Lane.{still_drawn};

use crate::frame::{
    band_width, print_foot, print_head, print_legend, print_style, print_text_tag, print_ticks,
};
use crate::lane::Lane;
use crate::{Look, SeenStep, SeenSteps};
use pp_channel::{CHANNELS, ChannelNo, Event};
use pp_machine::{Machine, PROCESSORS, PpNo};
use pp_numbers::Window;
use pp_text::{
    TextWriter, WriteFault, channel_name, print_channel_text, print_state_text, processor_name,
};
use std::alloc::Allocator;
use std::io::Write;

/// Writes an SVG of the turns of a window: a lane for each channel that a machine used, then one
/// for each processor shown, by its steps in the window; and flushes the writer. The machine is as
/// after the last turn of the window. The text goes out in pieces, and takes no memory. Where the
/// writer fails, the rest of the text is lost.
pub fn write_drawing<A: Allocator, B: Allocator, W: Write>(
    writer: &mut W,
    machine: &Machine<A>,
    shown: &[bool; PROCESSORS],
    steps: &SeenSteps<B>,
    window: Window,
) -> Result<(), WriteFault>
    ensures { IsWritten (drawing window shown.now machine.now steps.now.earlier
        steps.now.shown.items) result (W.contents writer.old) (W.contents writer.new) }
{
    let rows = lanes_above(machine, shown, PROCESSORS);
    let mut text = TextWriter::new(writer);
    print_head(&mut text, window, rows);
    print_style(&mut text);
    print_legend(&mut text);
    print_ticks(&mut text, window, rows);
    for place in 0..CHANNELS {
        print_channel_lane(&mut text, window, machine, ChannelNo::at(place));
    }
    for place in 0..PROCESSORS {
        print_processor_lane(&mut text, window, shown, machine, steps, PpNo::at(place));
    }
    print_foot(&mut text, rows);
    text.finish()
}

/// Whether something has happened on a channel.
fn is_used<A: Allocator>(machine: &Machine<A>, c: ChannelNo) -> bool
    ensures { result ≡ is_used machine.now c }
{
    !machine.channel(c).history().is_empty()
}

/// How many of the channels at the first `count` places are used.
fn used_among<A: Allocator>(machine: &Machine<A>, count: usize) -> u8
    requires { count ≤ channel_count }
    ensures count { result ≡ used_among count machine.now }
    ensures most { result ≤ count }
{
    let mut used = 0;
    for place in 0..count {
        used += u8::from(is_used(machine, ChannelNo::at(place)));
    }
    used
}

/// How many lanes are above that of the processor at a place, if it is shown.
fn lanes_above<A: Allocator>(machine: &Machine<A>, shown: &[bool; PROCESSORS], place: usize) -> u8
    requires { place ≤ processor_count }
    ensures { result ≡ lanes_above place shown.now machine.now }
{
    let mut lanes = used_among(machine, CHANNELS);
    for above in 0..place {
        lanes += u8::from(shown[above]);
    }
    lanes
}

/// Prints the lane of a channel, if it is used.
#[tactic(auto, unfolding(crate::specs::DrawingText::channel_lane, // if it is used
crate::specs::DrawingText::lane_text))]
fn print_channel_lane<A: Allocator, W: Write>(
    text: &mut TextWriter<W>,
    window: Window,
    machine: &Machine<A>,
    c: ChannelNo,
)
    ensures { Prints W.contents text.old text.new (channel_lane window machine.now c) }
{
    if !is_used(machine, c) {
        return;
    }
    let row = used_among(machine, c.index());
    let mut lane = Lane::begin(text, window, channel_name(c), row);
    if machine.opened(c) {
        lane.take(text, 0, Look::Channel(Event::Activate));
    }
    for entry in machine.events() {
        if entry.channel.get() == c.get() {
            lane.take(text, entry.turn, Look::Channel(entry.event));
        }
    }
    lane.finish(text);
    print_text_tag(text, *b"e", band_width(window) + 8, 26);
    print_channel_text(text, machine.channel(c));
    text.print(b"</text>\n</g>\n");
}

/// Prints the lane of a processor, if it is shown.
#[tactic(auto, unfolding(crate::specs::DrawingText::processor_lane, // if it is shown
crate::specs::DrawingText::lane_text))]
fn print_processor_lane<A: Allocator, B: Allocator, W: Write>(
    text: &mut TextWriter<W>,
    window: Window,
    shown: &[bool; PROCESSORS],
    machine: &Machine<A>,
    steps: &SeenSteps<B>,
    n: PpNo,
)
    ensures { Prints W.contents text.old text.new
        (processor_lane window shown.now machine.now steps.now.earlier steps.now.shown.items n) }
{
    if !shown[n.index()] {
        return;
    }
    let row = lanes_above(machine, shown, n.index());
    let mut lane = Lane::begin(text, window, processor_name(n), row);
    if let Some(step) = &steps.earlier[n.index()] {
        take_step(&mut lane, text, n, step);
    }
    for step in steps.shown.as_slice() {
        take_step(&mut lane, text, n, step);
    }
    lane.finish(text);
    print_text_tag(text, *b"e", band_width(window) + 8, 26);
    print_state_text(text, machine.pp(n).state());
    text.print(b"</text>\n</g>\n");
}

/// Takes a step into the lane of a processor, if it is its own.
fn take_step<W: Write>(lane: &mut Lane, text: &mut TextWriter<W>, n: PpNo, step: &SeenStep)
    ensures { (printed : List ℕ) × Prints W.contents text.old text.new printed
        × ((rest : List Phase) → still_drawn lane.old (cons_option (phase_for n step.now) rest)
        ≡ printed ++ still_drawn lane.new rest) }
{
    if step.pp.get() == n.get() {
        lane.take(text, step.turn, Look::Processor(step.condition));
    }
}
