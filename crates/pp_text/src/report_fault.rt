ghost use Rattle.std.specs.Prelude.{◌≡◌};
ghost use Rattle.pp_text.specs.declared.report_fault.ReportFault.{ReportFault};

use crate::WriteFault;
use pp_channel::Memory;
use thiserror::Error;

/// Why the text of a report was not written. `Memory` comes before the first byte is written.
#[derive(Clone, Copy, Debug, Error)]
pub enum ReportFault {
    /// An allocation was refused.
    #[error("out of memory")]
    Memory,
    /// The writer failed, or took nothing.
    #[error("write fault")]
    Write,
}

impl From<Memory> for ReportFault {
    ghost from_gives = { λ _ fault. fault ≡ ReportFault.Memory };

    fn from(_memory: Memory) -> ReportFault {
        ReportFault::Memory
    }
}

impl From<WriteFault> for ReportFault {
    ghost from_gives = { λ _ fault. fault ≡ ReportFault.Write };

    fn from(_fault: WriteFault) -> ReportFault {
        ReportFault::Write
    }
}
