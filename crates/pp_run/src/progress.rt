use pp_channel::Flags;

/// What a step did to its processor, and what held it.
#[derive(Clone, Copy)]
pub enum Progress {
    /// The processor was stopped or at fault already.
    AtRest,
    /// The processor went on, stopped, or ended in a fault.
    Moved,
    /// Its channel was not ready at these flags, and the processor has not changed.
    Held(Flags),
}
