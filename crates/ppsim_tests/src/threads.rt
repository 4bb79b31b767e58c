//! What runs in threads: channels and central memory behind locks, lines, and runs with one thread
//! per processor.

mod gates;
mod lines;
mod locked_central;
mod locked_channels;
mod relay;
mod reports;
mod ring;
mod runs;
mod tries;
