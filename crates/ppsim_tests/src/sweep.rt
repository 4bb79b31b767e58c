//! Each command of the program with each request for memory refused in turn, and over devices that
//! fail at each byte; and what else the program meets at its devices.

mod ample;
mod cases;
mod devices;
mod each_case;
mod entry;
mod files;
mod fronts;
mod long_pair;
mod pieces;
mod requests;
pub(crate) mod runs;
