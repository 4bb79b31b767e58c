ghost use Rattle.std.specs.Prelude.{◌++◌, Some};
ghost use Rattle.std.specs.Fmt.{DisplaysOnOk};
ghost use Rattle.pp_word.specs.Numeral.{short_decimal};
ghost use Rattle.pp_check.specs.FaultText.{flaw_text, trace_fault_text};

use crate::unlawful::write_unlawful;
use pp_channel::{ChannelNo, ChannelState, Event};
use pp_word::Word6;
use std::error::Error;
use std::fmt::{self, Display, Formatter, Write};

/// What is wrong with a line of a trace. Printed, channels and words are octal, turns and numbers
/// of events decimal.
#[derive(Clone, Copy, Debug)]
pub enum TraceFlaw {
    /// The line is none of a trace.
    Malformed,
    /// Its turn is not greater than the last one: the turn, and the last.
    TurnNotRising(u64, u64),
    /// Its number is not the next of the channel: the channel, the number, and the next.
    WrongNumber(ChannelNo, u64, u64),
    /// The event may not come: the channel, the event, and the channel's state before it.
    UnlawfulEvent(ChannelNo, Event, ChannelState),
    /// The channel's state is different: the channel, its state in the line, and the one that its
    /// events leave.
    WrongState(ChannelNo, ChannelState, ChannelState),
}

/// As `turn 5 after turn 7` or `PUT 0002 on CH05, which is full`.
impl Display for TraceFlaw {
    ghost output = { λ flaw. Some (flaw_text flaw) };

    fn fmt<W: Write>(&self, f: &mut Formatter<W>) -> fmt::Result {
        match self {
            TraceFlaw::Malformed => f.write_str("not a line of a trace"),
            TraceFlaw::TurnNotRising(turn, last) => {
                write_count(f, "turn ", *turn)?;
                write_count(f, " after turn ", *last)
            }
            TraceFlaw::WrongNumber(_, number, next) => {
                write_count(f, "number ", *number)?;
                write_count(f, " where ", *next)?;
                f.write_str(" is next")
            }
            TraceFlaw::UnlawfulEvent(c, event, state) => write_unlawful(f, *c, event, state),
            TraceFlaw::WrongState(c, shown, state) => {
                let c = Word6::truncated(c.get());
                write!(f, "CH{c} {shown}, expected {state}")
            }
        }
    }
}

impl Error for TraceFlaw {}

#[tactic(auto, using(pp_word::proofs::DisplayLemmas::decimal_shown))]
fn write_count<W: Write>(f: &mut Formatter<W>, name: &str, count: u64) -> fmt::Result
    ensures { DisplaysOnOk W.write_str_gives f.old result
        (Some (name.now ++ short_decimal count)) f.new }
{
    write!(f, "{name}{count}")
}

/// Why a text is no lawful trace: the first line with which it is none, from 1 on (decimal), and
/// what is wrong with it.
#[derive(Clone, Copy, Debug)]
pub struct TraceFault {
    pub line: u64,
    pub flaw: TraceFlaw,
}

/// As `line 3: not a line of a trace`.
impl Display for TraceFault {
    ghost output = { λ fault. Some (trace_fault_text fault) };

    fn fmt<W: Write>(&self, f: &mut Formatter<W>) -> fmt::Result {
        write_count(f, "line ", self.line)?;
        write!(f, ": {}", self.flaw)
    }
}

impl Error for TraceFault {}
