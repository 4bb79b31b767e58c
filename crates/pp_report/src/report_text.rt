ghost use Rattle.std.specs.Prelude.{◌≡◌, ◌≢◌, ◌≤◌, ℕ, All, List, Err, length, slice_get, IfSome, IsTrue, option_map};
ghost use Rattle.std.specs.List.{enumerate_from, flat_map};
ghost use Rattle.pp_numbers.specs.ChannelNo.{all_channels, channel_count, names_channel};
ghost use Rattle.pp_channel.specs.History.{history_on};
ghost use Rattle.pp_numbers.specs.PpNo.{processor_count, processor_index};
ghost use Rattle.pp_runner.specs.declared.worker.Worker.{Worker};
ghost use Rattle.pp_report.specs.Authors.{AreAuthors, AreAuthorsOn};
ghost use Rattle.pp_text.specs.TextWriter.{Prints};
ghost use Rattle.pp_report.specs.PrintedReport.{channel_events, numbered_event_line, printed_report, worker_line};
ghost use Rattle.pp_report.specs.ReportLaw.{FitsItsEnd, FitsItsLine, FitsItsReport, shown_end, printed_events};
ghost use Rattle.pp_text.specs.Written.{IsReportWritten, IsWritten};

use crate::authors::{ChannelAuthors, authors};
use crate::report_line::{print_numbered_event, print_worker_line};
use pp_channel::{CHANNELS, Channel, ChannelNo};
use pp_machine::{PROCESSORS, PpNo};
use pp_runner::{Report, Worker};
use pp_text::{Lines, ReportFault, TextWriter, WriteFault, print_each_channel, print_each_named};
use std::alloc::Allocator;
use std::io::Write;

/// Writes the text of a report, with the lines of the processors named, and flushes the writer. The
/// author of each event is found first, which takes memory; writing takes none. If the writer
/// fails, the rest of the text is lost.
pub fn write_report<A: Allocator + Copy, W: Write>(
    alloc: A,
    writer: &mut W,
    report: &Report<A>,
    named: &[bool; PROCESSORS],
) -> Result<(), ReportFault>
    requires { length report.now.ends.items ≤ processor_count }
    ensures written { IsReportWritten (printed_report named.now report.now) result
        (W.contents writer.old) (W.contents writer.new) }
    ensures fits { result ≢ Err ReportFault.Memory → FitsItsReport named.now report.now }
{
    let authors = authors(alloc, report.ends.as_slice(), &report.channels)?;
    Ok(print_report(writer, report, &authors, named)?)
}

/// Prints the text of a report whose authors are known.
#[tactic(auto, unfolding(crate::specs::PrintedReport::printed_report))]
fn print_report<A: Allocator + Copy, W: Write>(
    writer: &mut W,
    report: &Report<A>,
    authors: &[ChannelAuthors<A>],
    named: &[bool; PROCESSORS],
) -> Result<(), WriteFault>
    requires each_channel { length authors.now ≡ channel_count }
    requires authors { AreAuthors report.now.ends.items report.now.channels authors.now }
    ensures written { IsWritten (printed_report named.now report.now) result
        (W.contents writer.old) (W.contents writer.new) }
    ensures fits { FitsItsReport named.now report.now }
{
    let mut text = TextWriter::new(writer);
    print_events(&mut text, &report.channels, authors);
    print_each_named(&mut text, named, &WorkerLines(report.ends.as_slice()));
    print_each_channel(&mut text, &report.channels);
    text.finish()
}

fn print_events<A: Allocator, W: Write>(
    text: &mut TextWriter<W>,
    channels: &[Channel<A>; CHANNELS],
    authors: &[ChannelAuthors<A>],
)
    requires { length authors.now ≡ channel_count }
    ensures text { (workers : List (Worker A)) → AreAuthors workers channels.now authors.now
        → Prints W.contents text.old text.new
        (flat_map (channel_events workers channels.now) all_channels) }
    ensures fits { (workers : List (Worker A)) → AreAuthors workers channels.now authors.now
        → (c : ℕ) → IsTrue (names_channel c)
        → All FitsItsLine (printed_events c workers (history_on c channels.now)) }
{
    for place in 0..CHANNELS {
        let c = ChannelNo::at(place);
        print_history(text, c, channel_of(channels, c), &authors[c.index()]);
    }
}

/// Prints the line of each event that has an author.
fn print_history<A: Allocator, W: Write>(
    text: &mut TextWriter<W>,
    c: ChannelNo,
    channel: &Channel<A>,
    authors: &ChannelAuthors<A>,
)
    ensures text { (workers : List (Worker A)) → AreAuthorsOn c workers channel.now authors.now
        → Prints W.contents text.old text.new
        (flat_map (numbered_event_line c workers) (enumerate_from 0 channel.now)) }
    ensures fits { (workers : List (Worker A)) → AreAuthorsOn c workers channel.now authors.now
        → All FitsItsLine (printed_events c workers channel.now) }
{
    for (number, event) in channel.history().iter().enumerate() {
        if let Some(author) = authors.of(number) {
            print_numbered_event(text, c, number as u64, author, *event);
        }
    }
}

/// The lines of processors that have a worker.
#[derive(Drop)]
struct WorkerLines<'a, A: Allocator>(&'a [Worker<A>]);

impl<'a, A: Allocator, W: Write> Lines<PpNo, W> for WorkerLines<'a, A> {
    ghost text_of = { λ lines n. worker_line n (slice_get lines.0.now (processor_index n)) };

    ghost Fits = { λ lines n.
        IfSome (option_map shown_end (slice_get lines.0.now (processor_index n))) FitsItsEnd };

    fn print(&self, text: &mut TextWriter<W>, n: &PpNo) {
        if let Some(worker) = self.0.get(n.index()) {
            print_worker_line(text, *n, worker);
        }
    }
}

/// The channel of this number, of all channels in order.
fn channel_of<A: Allocator>(channels: &[Channel<A>; CHANNELS], c: ChannelNo) -> &Channel<A>
    ensures { result.now ≡ history_on c channels.now }
{
    &channels[c.index()]
}
