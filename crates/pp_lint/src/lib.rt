//! What is found in a deck: each fault, with its line, its column and the field at fault; what is
//! set twice, or lacking; instructions that fault wherever they are run; channels that one
//! processor alone uses; and what comments say of instructions that are others.
#![tactic(auto)]

mod channel_use;
mod comment_findings;
mod fault_words;
mod first_lines;
mod law;
mod line_fault;
mod line_findings;
mod lint_text;
mod row;
mod run_findings;
mod straight_line;
mod text_lines;
mod warnings;
mod whole_deck;
mod word_line;
mod words;

pub use law::lint_law;
pub use lint_text::write_lint;
pub use text_lines::TextLines;
