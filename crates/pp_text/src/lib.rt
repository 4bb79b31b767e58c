//! Printed texts of machines, and what other texts are printed with.
#![tactic(auto)]

mod central_words;
mod digits;
mod held_text;
mod instruction;
mod laws;
mod lines;
mod machine_text;
mod numbers;
mod order_text;
mod printed_line;
mod report_fault;
mod standing;
mod state_text;
mod text_writer;
mod write_fault;

pub use central_words::central_word;
pub use digits::{decimal6, octal2, octal4, octal6};
pub use held_text::{print_flags_text, print_held_text};
pub use instruction::{print_running, running_field};
pub use laws::{instruction_law, text_law};
pub use lines::{
    Lines, WORDS_ON_A_LINE, print_each, print_each_below, print_each_channel, print_each_named,
};
pub use machine_text::{print_channels, write_text};
pub use numbers::{
    print_decimal, print_octal, print_short_decimal, print_short_octal, print_upper_digits,
};
pub use order_text::print_order;
pub use printed_line::print_event_end;
pub use report_fault::ReportFault;
pub use standing::print_standing;
pub use state_text::{
    channel_name, print_channel_line, print_channel_text, print_fault_text, print_state_text,
    processor_heading, processor_name,
};
pub use text_writer::{TextWriter, print_bytes};
pub use write_fault::{WriteFault, write_whole};
