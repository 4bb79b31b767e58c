ghost use Rattle.pp_check.specs.Verdict.{verdict_line};
ghost use Rattle.pp_text.specs.Written.{IsWritten};

use pp_text::{TextWriter, WriteFault, print_short_decimal};
use std::io::Write;

/// The counts of a lawful trace (decimal).
#[derive(Clone, Copy)]
pub struct Verdict {
    /// Its events.
    pub events: u64,
    /// The channels that have events.
    pub channels: u64,
    /// The sessions on these channels, those that were open before the trace among them.
    pub sessions: u64,
}

/// Writes `lawful: 12 events on 3 channels, 4 sessions` and a line feed, and flushes the writer.
pub fn write_verdict<W: Write>(writer: &mut W, verdict: &Verdict) -> Result<(), WriteFault>
    ensures { IsWritten (verdict_line verdict.now) result
        (W.contents writer.old) (W.contents writer.new) }
{
    let mut text = TextWriter::new(writer);
    text.print(b"lawful: ");
    print_short_decimal(&mut text, verdict.events);
    text.print(b" events on ");
    print_short_decimal(&mut text, verdict.channels);
    text.print(b" channels, ");
    print_short_decimal(&mut text, verdict.sessions);
    text.print(b" sessions");
    text.print(b"\n");
    text.finish()
}
