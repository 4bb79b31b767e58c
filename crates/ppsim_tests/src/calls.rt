//! Worked rows of words, channels, lines, processors and machines; a run at every limit; texts of
//! faults; traces and drawings by the thousand.

mod changed_traces;
mod channel_numbers;
mod channel_words;
mod fault_texts;
mod limits;
pub(crate) mod lines;
mod machine;
mod numbers;
mod odd_programs;
mod one_channel;
mod processor;
mod told;
mod twenty;
mod well_formed;
mod words;
