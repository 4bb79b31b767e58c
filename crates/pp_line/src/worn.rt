use thiserror::Error;

/// The channel has had as many events as its word can count, 2^50 - 1.
#[derive(Clone, Copy, Debug, PartialEq, Eq, Error)]
#[error("channel is worn")]
pub struct Worn;
