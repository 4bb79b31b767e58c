//! How a row of the table of commands is written.

/// An example of a command, over a file with these lines; and what stands before it.
macro_rules! example {
    ($words:literal, $file:literal, $lines:literal $(, after $front:literal)?) => {
        concat!(
            $($front,)?
            "Example:\n  ppsim ", $words, " < ", $file,
            "\nwhere ", $file, " has the lines\n", $lines
        )
    };
}

/// An example over a deck in which one processor hands a word to another.
macro_rules! handoff_example {
    ($words:literal $(, after $front:literal)?) => {
        example!($words, "handoff.deck", "  PP 0
  0100 7405 1407 7205 0300
  START 0100
  PP 1
  0200 7005 0300
  START 0200" $(, after $front)?)
    };
}

/// An example over a deck of four instructions.
macro_rules! four_example {
    ($words:literal) => {
        example!($words, "four.deck", "  PP 0
  0100 1405 1603 3450 0300
  START 0100")
    };
}

/// A text with a paragraph in it that says what the faults of a processor are.
macro_rules! with_faults {
    ($before:literal $(, $after:literal)?) => {
        concat!(
            $before,
            "

FAULT 1 is an exchange jump and FAULT 2 a read of the central program address (there is no central
processor); FAULT 3 is a channel that the machine does not have, and FAULT 4 an address past the end
of central memory.",
            $("\n\n", $after)?
        )
    };
}

/// An option, and whether its command needs it.
macro_rules! option {
    (required: $required:literal, $name:literal, $value:expr) => {
        OptionForm {
            name: $name,
            required: $required,
            value: $value,
        }
    };
}

/// These options, and those that every run has.
macro_rules! with_run_options {
    ($($option:expr),* $(,)?) => {
        &[$($option,)* UNTIL_OPTION, TIMES_OPTION, ORDER_OPTION, PROCESSORS_OPTION]
    };
}

/// A command with its help.
macro_rules! command {
    (
        kind: $kind:expr,
        name: $name:literal,
        about: $about:literal,
        long_about: $long_about:expr,
        example: $example:expr,
        options: $options:expr,
    ) => {
        CommandHelp {
            form: &CommandForm {
                kind: $kind,
                name: $name,
                about: $about,
                example: $example,
                options: $options,
            },
            long_about: $long_about,
        }
    };
}

pub(crate) use command;
pub(crate) use example;
pub(crate) use four_example;
pub(crate) use handoff_example;
pub(crate) use option;
pub(crate) use with_faults;
pub(crate) use with_run_options;
