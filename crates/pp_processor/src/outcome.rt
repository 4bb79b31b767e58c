/// The outcome of one step.
#[derive(Clone, Copy, PartialEq, Eq)]
pub enum Outcome {
    /// The processor went on, stopped, or ended in a fault.
    Moved,
    /// Its channel was not ready, and the processor has not changed.
    Held,
    /// The processor was stopped or at fault already, and has not changed.
    AtRest,
}
