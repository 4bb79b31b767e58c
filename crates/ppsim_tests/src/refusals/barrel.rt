//! Turns of the barrel when growths are refused.

use crate::refusals::machine::{RationedMachine, are_same};
use crate::refusals::refusal::unless_refused;
use pp_channel::Memory;
use pp_machine::{Machine, PpNo, Profile};
use std::alloc::Global;
use test_bench::Rationed;

/// PP 0 loads PP 1 at dead start, with the three words after its program.
pub(crate) const LOADER: &str = "\
DEAD
PP 0
0100 1403 7301 0107 6601 0103 7501 0300
0107 0000 1405 0300
START 0100
";

/// This many turns of the barrel, each by a call of `step`.
fn step_in_turn(machine: &mut Machine<Global>, turns: u64) -> Result<(), Memory> {
    let profile = machine.profile();
    for turn in 0..turns {
        let place = match profile {
            Profile::Ten => turn % 10,
            Profile::Twenty => turn % 20,
        };
        machine.step(PpNo::at(place as usize))?;
    }
    Ok(())
}

/// Nothing if a request is refused and cuts the run, which is as after the steps that it did; else
/// whether the whole run is made.
pub(crate) fn run_barrel_cut(
    heap: &Rationed<Global>,
    machine: &mut RationedMachine,
    twin: &mut Machine<Global>,
    turns: u32,
) -> Option<bool> {
    let cut = machine.run_barrel(turns).err();
    let refused = heap.has_refused();
    let done = match &cut {
        Some(cut) => cut.done,
        None => u64::from(turns),
    };
    let is_cut = cut.is_some() == refused && (done < u64::from(turns)) == refused;
    let is_done = step_in_turn(twin, done).is_ok() && are_same(machine, twin);
    unless_refused(is_cut && is_done, refused)
}
