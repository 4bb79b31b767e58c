//! Processors that run at once, each in a thread of its own, over shared channels and central
//! memory.
#![tactic(auto)]

mod crew;
mod end;
mod gate;
mod locked_central;
mod opening;
mod report;
mod run_context;
mod run_fault;
mod spinning;
mod threads;
mod worker;
mod worker_state;

pub use end::End;
pub use gate::{Gate, NoGate};
pub use locked_central::LockedCentral;
pub use pp_numbers::Limits;
pub use report::Report;
pub use run_fault::RunFault;
pub use threads::run_threads;
pub use worker::Worker;
