//! Turns of the barrel on both machines, and steps of processors that it leaves out.

use super::processor::shown;
use pp_machine::{Machine, Outcome, PROCESSORS, Pp, PpNo, PpState, Profile};
use pp_word::Word18;
use std::alloc::Global;
use test_bench::word;

/// A processor each of whose steps adds 1 to A, whatever P is.
fn count_steps(pp: &mut Pp) {
    for place in 0..4096u16 {
        pp.set(word(place), word(0o1601));
    }
    pp.start(word(0), Word18::ZERO);
}

/// Whether the processors at the first places made this many steps, the others of the barrel this
/// many, and those after it none.
fn made_steps(machine: &Machine<Global>, more: usize, barrel: usize, steps: [u32; 2]) -> bool {
    for place in 0..PROCESSORS {
        let made = if place < more {
            steps[0]
        } else if place < barrel {
            steps[1]
        } else {
            0
        };
        let p = (made % 4096) as u16;
        if shown(machine.pp(PpNo::at(place))) != (p, made, PpState::Running) {
            return false;
        }
    }
    true
}

/// Whether all twenty make these steps, once they are started, in `turns` turns of the barrel.
fn make_steps(
    machine: &mut Machine<Global>,
    turns: u32,
    (more, barrel, steps): (usize, usize, [u32; 2]),
) -> bool {
    for place in 0..PROCESSORS {
        count_steps(machine.pp_mut(PpNo::at(place)));
    }
    machine.run_barrel(turns).is_ok()
        && machine.turns() == u64::from(turns)
        && made_steps(machine, more, barrel, steps)
}

/// Turns of the barrel come to the first ten processors, or to all.
#[test]
fn rounds_of_each_profile(rt: HostRuntime) {
    for &(profile, turns, steps) in &[
        (Profile::Ten, 9, (9, 10, [1, 0])),
        (Profile::Ten, 13, (3, 10, [2, 1])),
        (Profile::Ten, 50_007, (7, 10, [5001, 5000])),
        (Profile::Twenty, 19, (19, 20, [1, 0])),
        (Profile::Twenty, 33, (13, 20, [2, 1])),
        (Profile::Twenty, 100_017, (17, 20, [5001, 5000])),
    ] {
        let mut machine = Machine::new(rt.alloc(), profile, 1).expect(&rt, "a machine");
        assert!(rt; make_steps(&mut machine, turns, steps), "{turns}");
    }
}

/// Whether the processors between those that are left out are as new.
fn are_new(machine: &Machine<Global>) -> bool {
    for place in 11..19 {
        if shown(machine.pp(PpNo::at(place))) != (0, 0, PpState::Stopped) {
            return false;
        }
    }
    true
}

/// Whether the machine of ten, after 1000 turns of the barrel (decimal) and three of two processors
/// that it leaves out, makes two steps more of the last of them, both have then made theirs, and
/// those between them are as new.
fn steps_behind(machine: &mut Machine<Global>, first_behind: PpNo, last: PpNo) -> bool {
    count_steps(machine.pp_mut(last));
    count_steps(machine.pp_mut(first_behind));
    let is_turned = machine.run_barrel(1000).is_ok()
        && machine
            .run_turns(&[first_behind, last, first_behind])
            .is_ok();
    let moved = Ok(Outcome::Moved);
    is_turned
        && are_new(machine)
        && [machine.step(last), machine.step(last)] == [moved, moved]
        && shown(machine.pp(first_behind)) == (2, 2, PpState::Running)
        && shown(machine.pp(last)) == (3, 3, PpState::Running)
        && machine.turns() == 1005
}

/// Only a list of turns and a step come to a processor that the machine of ten lacks. The others of
/// these stay as new, before the last one that was lent and after the first.
#[test]
fn steps_behind_the_barrel(rt: HostRuntime) {
    let mut machine = Machine::new(rt.alloc(), Profile::Ten, 1).expect(&rt, "a machine");
    assert!(rt; steps_behind(&mut machine, PpNo::at(10), PpNo::at(19)));
}
