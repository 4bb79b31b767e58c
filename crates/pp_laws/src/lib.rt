//! Laws across layers, proved apart from the program: what a printed text says of runs, why it is a
//! lawful trace, that a drawing is well-formed XML, that a deck goes on exactly from a dump, and
//! what one run says of every order of its steps and of every run by threads. A law does nothing:
//! its contract says what is proved of the definitions.
#![tactic(auto)]

mod circle;
mod drawings;
mod dumps;
mod endings;
mod orders;
mod texts;
mod traces;

pub use circle::circle_law;
pub use drawings::well_formed_law;
pub use dumps::{goes_on_law, order_text_law};
pub use endings::orders_law;
pub use orders::{determinacy_law, one_run_law, races_report_law, races_text_law};
pub use texts::{barrel_text_law, threads_text_law};
pub use traces::{barrel_law, checked_text_law, printed_law, printed_report_law};
