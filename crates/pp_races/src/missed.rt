use pp_channel::Flags;
use pp_machine::Trace;

/// An event, and the flags of its channel before it.
#[derive(Clone, Copy)]
pub(crate) struct Missed {
    pub(crate) found: Flags,
    pub(crate) entry: Trace,
}
