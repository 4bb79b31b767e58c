//! The command line: its commands, what its words ask for, or why they are refused.
#![tactic(auto)]

mod channel_list;
mod command;
mod command_kind;
mod command_macros;
mod command_table;
mod command_words;
mod line_fault;
mod number_list;
mod number_range;
mod option_values;
mod order_list;
mod processor_list;
mod text_of;
mod values;
mod view;
mod work;

pub use channel_list::listed_channels;
pub use command::{CommandForm, CommandHelp, OptionForm, VERSION, ValueForm};
pub use command_kind::CommandKind;
pub use command_table::{ABOUT, EXAMPLE, FILE_HELP, MANUAL, command_named, commands};
pub use command_words::{asked_of, asks_for_more, mixes_forms, named_file, read_words};
pub use line_fault::LineFault;
pub use number_range::NumberRange;
pub use order_list::listed_order;
pub use text_of::TextOf;
pub use values::Values;
pub use view::{ChosenSteps, View};
pub use work::{Asked, Tested, Work};
