//! Reports of runs by threads: what is promised of them and of every run of a deck; their texts.
#![tactic(auto)]

mod authors;
mod laws;
mod promises;
mod report_line;
mod report_text;

pub use laws::{author_law, report_law};
pub use promises::{headline_law, serial_law};
pub use report_text::write_report;
