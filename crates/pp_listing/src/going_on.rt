ghost use Rattle.std.specs.Prelude.{◌≡◌, Some};
ghost use Rattle.pp_listing.specs.Dump.{first_busy, busy_text, in_processor};

use pp_channel::{CHANNELS, ChannelNo};
use pp_machine::{Machine, PROCESSORS, Pp, PpNo, PpState};
use pp_word::Word6;
use std::alloc::Allocator;
use std::error::Error;
use std::fmt::{self, Display, Formatter, Write};

/// Why a machine is not between programs. Numbers are printed in two octal digits.
#[derive(Clone, Copy, Debug, PartialEq, Eq)]
pub enum Busy {
    /// A block transfer is in progress.
    WithinBlock(PpNo),
    /// A numbered fault ended the processor.
    AtFault(PpNo),
    /// The channel is active.
    Active(ChannelNo),
}

/// As `PP01 within a block`, `PP01 at fault` or `CH05 active`.
impl Display for Busy {
    ghost output = { λ busy. Some (busy_text busy) };

    fn fmt<W: Write>(&self, f: &mut Formatter<W>) -> fmt::Result {
        match self {
            Busy::WithinBlock(n) => write!(f, "PP{} within a block", Word6::truncated(n.get())),
            Busy::AtFault(n) => write!(f, "PP{} at fault", Word6::truncated(n.get())),
            Busy::Active(c) => write!(f, "CH{} active", Word6::truncated(c.get())),
        }
    }
}

impl Error for Busy {}

/// The first reason: in a processor, by number, or else on a channel, by number.
pub(crate) fn first_busy<A: Allocator>(machine: &Machine<A>) -> Option<Busy>
    ensures { result ≡ first_busy machine.now }
{
    for place in 0..PROCESSORS {
        let n = PpNo::at(place);
        if let Some(going_on) = in_processor(n, machine.pp(n)) {
            return Some(going_on);
        }
    }
    for place in 0..CHANNELS {
        let c = ChannelNo::at(place);
        if machine.channel(c).flags().active {
            return Some(Busy::Active(c));
        }
    }
    None
}

fn in_processor(n: PpNo, pp: &Pp) -> Option<Busy>
    ensures { result ≡ in_processor n pp.now.block pp.now.state }
{
    match pp.state() {
        _ if pp.block().is_some() => Some(Busy::WithinBlock(n)),
        PpState::Fault(_) => Some(Busy::AtFault(n)),
        PpState::Running | PpState::Stopped => None,
    }
}
