/// Why a worker made no further step.
#[derive(Clone, Copy, PartialEq, Eq)]
pub enum End {
    /// Its processor has stopped.
    Stopped,
    /// Its processor is at the fault of this number.
    Fault(u8),
    /// It has made all the steps of its limit.
    Steps,
    /// It was held at one step as often in a row as its patience allows.
    Patience,
    /// It was refused memory for one more answer.
    Memory,
    /// Its next step needs an operation that does more than look, on a channel that has had as many
    /// events as its word can count, 2^50 - 1 (decimal).
    Worn,
}
