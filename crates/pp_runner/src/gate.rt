use pp_machine::PpNo;

/// What each worker passes before each try of a step.
pub trait Gate {
    /// Called by the worker of the processor before its try number `turn`, counted from 0.
    fn pass(&self, pp: PpNo, turn: u64);
}

/// A gate that never waits.
#[derive(Clone, Copy)]
pub struct NoGate;

impl Gate for NoGate {
    fn pass(&self, _pp: PpNo, _turn: u64) {}
}
