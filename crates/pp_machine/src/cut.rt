use thiserror::Error;

/// A run ended early: the step after these was refused memory.
#[derive(Clone, Copy, Debug, Error)]
#[error("cut after {done} steps")]
pub struct Cut {
    /// How many steps were done (decimal). The machine is as after them.
    pub done: u64,
}
