//! The listing of a deck and the dump of one that has run: texts for people to read, which are
//! decks.
#![tactic(auto)]

mod deck_lines;
mod dumped_deck;
mod going_on;
mod instruction_lines;
mod laws;
mod listed_deck;
mod listed_instructions;
mod rest_of_order;
mod sections;

pub use deck_lines::{print_central_line, print_section_line};
pub use dumped_deck::{DumpFault, write_dump};
pub use going_on::Busy;
pub use laws::{dump_law, listing_law};
pub use listed_deck::write_listing;
pub use listed_instructions::{ListedInstruction, ListedInstructions};
pub use rest_of_order::order_left;
