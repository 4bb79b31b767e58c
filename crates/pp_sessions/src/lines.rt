ghost use Rattle.std.specs.Prelude.{slice_index_or};
ghost use Rattle.pp_numbers.specs.PpNo.{processor_index};
ghost use Rattle.pp_run.specs.StepCounts.{no_steps};
ghost use Rattle.pp_text.specs.TextWriter.{Prints};
ghost use Rattle.pp_sessions.specs.SessionsText.{counts_line, idle_line, moment_text, session_line};

use crate::tally::{Moment, Tally};
use pp_channel::ChannelNo;
use pp_machine::{PROCESSORS, PpNo};
use pp_run::StepCounts;
use pp_text::{
    Lines, TextWriter, channel_name, octal4, print_decimal, print_short_decimal, processor_name,
};
use std::io::Write;

/// Prints `CH05 SESSION 1 FROM 000000 TO 000030 PUT 1 TAKEN 0 LOST 0007` and a line feed; if the
/// session has not ended, ` GOING ON` for ` TO 000030` and ` WAITING` for ` LOST`.
pub(crate) fn print_session<W: Write>(
    text: &mut TextWriter<W>,
    c: ChannelNo,
    number: u64,
    session: &Tally,
)
    ensures { Prints W.contents text.old text.new (session_line c number session.now) }
{
    let has_ended = session.has_ended;
    text.print(&channel_name(c));
    text.print(b" SESSION ");
    print_short_decimal(text, number);
    text.print(b" FROM ");
    print_moment(text, session.from);
    if has_ended {
        text.print(b" TO ");
        print_moment(text, session.to);
    } else {
        text.print(b" GOING ON");
    }
    text.print(b" PUT ");
    print_short_decimal(text, session.put);
    text.print(b" TAKEN ");
    print_short_decimal(text, session.taken);
    if let Some(word) = session.untaken {
        text.print(if has_ended { b" LOST " } else { b" WAITING " });
        text.print(&octal4(word.get()));
    }
    text.print(b"\n");
}

/// Prints `CH05 IDLE FUNCTIONS 2 FROM 000010 TO 000030` and a line feed.
pub(crate) fn print_idle<W: Write>(text: &mut TextWriter<W>, c: ChannelNo, idle: &Tally)
    ensures { Prints W.contents text.old text.new (idle_line c idle.now) }
{
    text.print(&channel_name(c));
    text.print(b" IDLE FUNCTIONS ");
    print_short_decimal(text, idle.events);
    text.print(b" FROM ");
    print_moment(text, idle.from);
    text.print(b" TO ");
    print_moment(text, idle.to);
    text.print(b"\n");
}

/// The lines of these counts: `PP00 MOVED 24 HELD 376 REST 0` and a line feed.
#[derive(Drop)]
pub(crate) struct CountsLines<'a>(pub(crate) &'a [StepCounts; PROCESSORS]);

impl<'a, W: Write> Lines<PpNo, W> for CountsLines<'a> {
    ghost text_of = { λ lines n.
        counts_line n (slice_index_or lines.0.now (processor_index n) no_steps) };

    fn print(&self, text: &mut TextWriter<W>, n: &PpNo) {
        let counts = &self.0[n.index()];
        text.print(&processor_name(*n));
        text.print(b" MOVED ");
        print_short_decimal(text, u64::from(counts.moved));
        text.print(b" HELD ");
        print_short_decimal(text, u64::from(counts.held));
        text.print(b" REST ");
        print_short_decimal(text, u64::from(counts.at_rest));
        text.print(b"\n");
    }
}

/// Prints `000060`, or `DEAD START`.
fn print_moment<W: Write>(text: &mut TextWriter<W>, moment: Moment)
    ensures { Prints W.contents text.old text.new (moment_text moment) }
{
    match moment {
        Moment::DeadStart => text.print(b"DEAD START"),
        Moment::Turn(turn) => print_decimal(text, turn),
    }
}
