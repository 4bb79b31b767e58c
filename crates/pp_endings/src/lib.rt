//! The text of all endings of a deck, over every order of its steps.
#![tactic(auto)]

mod endings_text;

pub use endings_text::{load_after, print_order_line, text_of_endings};
