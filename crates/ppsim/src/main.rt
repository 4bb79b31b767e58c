//! The simulator of the peripheral processors and data channels of a Control Data 6600: does what
//! its command line asks for, over a deck or a trace from standard input or a file.
#![tactic(auto)]

use pp_sim::run_main;
use std::process::ExitCode;

fn main(rt: HostRuntime) -> ExitCode {
    run_main(
        &rt,
        &rt,
        &mut rt.stdin(),
        &mut rt.stdout(),
        &mut rt.stderr(),
    )
}
