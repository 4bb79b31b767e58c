/// The state of a peripheral processor.
#[derive(Clone, Copy, PartialEq, Eq)]
pub enum PpState {
    /// Its next step is the instruction at P, or the next word of a block.
    Running,
    /// It was not started, or UJN with d 00 or 77 stopped it.
    Stopped,
    /// A numbered fault ended it: `EXCHANGE_JUMP`, `NO_CENTRAL_PROCESSOR`, `NO_SUCH_CHANNEL` or
    /// `PAST_CENTRAL_MEMORY`.
    Fault(u8),
}

impl PpState {
    ghost use Rattle.std.specs.Prelude.{◌≡◌};
    ghost use Rattle.pp_processor.specs.Processor.{is_running};

    /// Whether it is `Running`.
    pub fn is_running(self) -> bool
        ensures { result ≡ is_running self }
    {
        matches!(self, PpState::Running)
    }
}

/// Fault 1: EXN, the exchange jump, which needs a central processor.
pub const EXCHANGE_JUMP: u8 = 1;

/// Fault 2: RPN, which reads the program address of a central processor.
pub const NO_CENTRAL_PROCESSOR: u8 = 2;

/// Fault 3: an instruction of the codes 64 to 77 (octal) names a channel that the machine lacks.
pub const NO_SUCH_CHANNEL: u8 = 3;

/// Fault 4: a central address at or past the size of central memory.
pub const PAST_CENTRAL_MEMORY: u8 = 4;
