ghost use Rattle.std.specs.Prelude.{◌≡◌, Some};
ghost use Rattle.pp_sim.specs.{FaultText.fault_text, TextAnswer.fault_by};
ghost use Rattle.pp_sim.specs.declared.text_fault.TextFault.{TextFault};

use pp_channel::Memory;
use pp_check::TraceFault;
use pp_deck::DeckFault;
use pp_listing::Busy;
use pp_machine::Cut;
use pp_text::{ReportFault, WriteFault};
use std::error::Error;
use std::fmt::{self, Display, Formatter};

/// Why a text of a deck or of a trace was not written, or that it says what was found. Every fault
/// but `Write` and `Findings` comes before the first byte is written.
#[derive(Clone, Copy, Debug)]
pub enum TextFault {
    /// The reader failed.
    Read,
    /// The deck was refused, for another cause than memory.
    Deck(DeckFault),
    /// The run left a machine that a dump can't show, since this goes on in it.
    NotBetweenPrograms(Busy),
    /// The text was written, and says what was found, or that the run is not as its deck expects.
    Findings,
    /// A trace is not lawful.
    Trace(TraceFault),
    /// A growth was refused.
    Memory,
    /// The writer failed, or took nothing.
    Write,
}

/// As `deck fault 4 at line 3` or `out of memory`.
impl Display for TextFault {
    ghost output = { λ fault. Some (fault_text fault) };

    fn fmt<W: fmt::Write>(&self, f: &mut Formatter<W>) -> fmt::Result {
        match self {
            TextFault::Read => f.write_str("read fault"),
            TextFault::Deck(fault) => fault.fmt(f),
            TextFault::NotBetweenPrograms(busy) => write!(f, "not between programs: {busy}"),
            TextFault::Findings => f.write_str("something is found"),
            TextFault::Trace(fault) => fault.fmt(f),
            TextFault::Memory => f.write_str("out of memory"),
            TextFault::Write => f.write_str("write fault"),
        }
    }
}

impl Error for TextFault {}

impl From<Cut> for TextFault {
    ghost from_gives = { λ _ fault. fault ≡ TextFault.Memory };

    fn from(_cut: Cut) -> TextFault {
        TextFault::Memory
    }
}

impl From<Memory> for TextFault {
    ghost from_gives = { λ _ fault. fault ≡ TextFault.Memory };

    fn from(_memory: Memory) -> TextFault {
        TextFault::Memory
    }
}

impl From<WriteFault> for TextFault {
    ghost from_gives = { λ _ fault. fault ≡ TextFault.Write };

    fn from(_fault: WriteFault) -> TextFault {
        TextFault::Write
    }
}

impl From<ReportFault> for TextFault {
    ghost from_gives = { λ cause fault. fault ≡ fault_by cause };

    fn from(fault: ReportFault) -> TextFault {
        match fault {
            ReportFault::Memory => TextFault::Memory,
            ReportFault::Write => TextFault::Write,
        }
    }
}
