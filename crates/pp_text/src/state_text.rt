//! The states of processors and channels, in words.

ghost use Rattle.std.specs.Prelude.{◌≡◌, ◌<◌, ◌^◌, ◌++◌, codes};
ghost use Rattle.pp_channel.specs.History.{active, waiting};
ghost use Rattle.pp_word.specs.Numeral.{octal};
ghost use Rattle.pp_channel.specs.ChannelText.{channel_text};
ghost use Rattle.pp_text.specs.PrintedText.{channel_line, state_text};
ghost use Rattle.pp_text.specs.TextLaw.{HistoryFits};
ghost use Rattle.pp_text.specs.TextWriter.{Prints};

use crate::{TextWriter, octal2, octal4, octal6};
use pp_channel::{Channel, ChannelNo};
use pp_machine::{Pp, PpNo, PpState};
use std::alloc::Allocator;
use std::io::Write;

/// `PP00`
pub fn processor_name(n: PpNo) -> [u8; 4]
    ensures { result ≡ codes "PP" ++ octal 2 n }
{
    let [n0, n1] = octal2(n.get());
    [b'P', b'P', n0, n1]
}

/// `CH05`
pub fn channel_name(c: ChannelNo) -> [u8; 4]
    ensures { result ≡ codes "CH" ++ octal 2 c }
{
    let [c0, c1] = octal2(c.get());
    [b'C', b'H', c0, c1]
}

/// `PP00 P=0103 A=000007 `
pub fn processor_heading(n: PpNo, pp: &Pp) -> [u8; 21]
    ensures text { result ≡ codes "PP" ++ octal 2 n ++ codes " P=" ++ octal 4 pp.now.p
        ++ codes " A=" ++ octal 6 pp.now.a ++ codes " " }
    ensures p { pp.now.p < 2 ^ 12 }
    ensures a { pp.now.a < 2 ^ 18 }
{
    let [_, _, n0, n1] = processor_name(n);
    let [p0, p1, p2, p3] = octal4(pp.p().get());
    let [a0, a1, a2, a3, a4, a5] = octal6(pp.a().get());
    [
        b'P', b'P', n0, n1, b' ', b'P', b'=', p0, p1, p2, p3, b' ', b'A', b'=', a0, a1, a2, a3, a4,
        a5, b' ',
    ]
}

/// Prints `RUNNING`, `STOPPED` or `FAULT 4`.
pub fn print_state_text<W: Write>(text: &mut TextWriter<W>, state: PpState)
    ensures { Prints W.contents text.old text.new (state_text state) }
{
    match state {
        PpState::Running => text.print(b"RUNNING"),
        PpState::Stopped => text.print(b"STOPPED"),
        PpState::Fault(number) => print_fault_text(text, number),
    }
}

/// Prints `FAULT 4`.
pub fn print_fault_text<W: Write>(text: &mut TextWriter<W>, number: u8)
    ensures { Prints W.contents text.old text.new (codes "FAULT " ++ octal 1 number) }
{
    text.print(b"FAULT ");
    text.print(&[b'0' + number % 8]);
}

/// Prints `ACTIVE FULL 0007`, `ACTIVE EMPTY` or `INACTIVE`.
pub fn print_channel_text<A: Allocator, W: Write>(text: &mut TextWriter<W>, channel: &Channel<A>)
    ensures text { Prints W.contents text.old text.new
        (channel_text (active channel.now) (waiting channel.now)) }
    ensures fits { HistoryFits channel.now }
{
    match channel.waiting() {
        Some(word) => {
            text.print(b"ACTIVE FULL ");
            text.print(&octal4(word.get()));
        }
        None if channel.flags().active => text.print(b"ACTIVE EMPTY"),
        None => text.print(b"INACTIVE"),
    }
}

/// Prints `CH05 ACTIVE FULL 0007` and a line feed, if the channel has a history.
pub fn print_channel_line<A: Allocator, W: Write>(
    text: &mut TextWriter<W>,
    c: ChannelNo,
    channel: &Channel<A>,
)
    ensures text { Prints W.contents text.old text.new (channel_line c channel.now) }
    ensures fits { HistoryFits channel.now }
{
    if channel.history().is_empty() {
        return;
    }
    text.print(&channel_name(c));
    text.print(b" ");
    print_channel_text(text, channel);
    text.print(b"\n");
}
