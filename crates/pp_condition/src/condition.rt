use pp_numbers::{ChannelNo, PpNo};
use pp_word::{Word12, Word18, Word60};

/// A condition on a step of a run.
#[derive(Clone, Copy)]
pub enum Condition {
    /// The step is this processor's, and this is true of it.
    Processor(PpNo, ProcessorCondition),
    /// It changes the central word at this address: to this word, if one is given.
    Central(Word18, Option<Word60>),
    /// It makes an event of this form on this channel.
    Channel(ChannelNo, EventForm),
    /// It disconnects a full channel, whose word is lost.
    Lost,
    /// After it no step of any processor would move.
    Quiet,
}

/// A condition on a step of one processor.
#[derive(Clone, Copy)]
pub enum ProcessorCondition {
    /// After it the processor runs, within no block, and stands at this place.
    StandsAt(Word12),
    /// It changes the word at this place: to this word, if one is given.
    Stores(Word12, Option<Word12>),
    /// The processor stops.
    Stops,
    /// The processor comes to a fault.
    Faults,
    /// The processor is held, since its channel is not ready.
    IsHeld,
}

/// A form of an event: its kind, and perhaps its word.
#[derive(Clone, Copy)]
pub enum EventForm {
    /// Any event.
    Any,
    Activate,
    Disconnect,
    Put(Option<Word12>),
    Take(Option<Word12>),
    Function(Option<Word12>),
}
