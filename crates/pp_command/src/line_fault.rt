use clap::Error as Refusal;
use thiserror::Error;

/// Why a command line was refused.
#[derive(Debug, Drop, Error)]
pub enum LineFault {
    /// A growth was refused.
    #[error("out of memory")]
    Memory,
    /// The words are no command line of the program, or ask for help.
    #[error(transparent)]
    Refused(Refusal),
    /// The text of a number is missing, is not a number, or is out of its range.
    #[error("number out of range")]
    Number,
    /// More turns are to be drawn than a picture has.
    #[error("a picture has at most 2000 turns: give --from and --to")]
    Picture,
    /// The options of `test` are of none of its two forms.
    #[error("give --turns, or --every-order and --states alone")]
    Forms,
}
