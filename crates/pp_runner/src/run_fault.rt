use pp_channel::Memory;
use std::alloc::AllocFailed;
use std::thread::SpawnError;
use thiserror::Error;

/// Why a run left no report.
#[derive(Clone, Copy, Debug, Error)]
pub enum RunFault {
    /// An allocation was refused, or the system could not start a worker.
    #[error("out of memory")]
    Memory = 1,
}

impl From<Memory> for RunFault {
    fn from(_refused: Memory) -> RunFault {
        RunFault::Memory
    }
}

impl<T: Drop> From<AllocFailed<T>> for RunFault {
    fn from(_refused: AllocFailed<T>) -> RunFault {
        RunFault::Memory
    }
}

impl<F: Drop> From<SpawnError<F>> for RunFault {
    fn from(_refused: SpawnError<F>) -> RunFault {
        RunFault::Memory
    }
}
