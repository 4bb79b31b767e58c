//! Drawings of runs of odd programs are well-formed.

use super::well_formed::is_well_formed;
use pp_draw::{Window, run_seeing_steps, write_drawing};
use pp_machine::{CentralFault, Machine, PROCESSORS, PpNo, Profile};
use pp_run::Order;
use std::alloc::Global;
use std::process::Abort;
use test_bench::{Chance, put_program};

/// How many runs are drawn.
const RUNS: u32 = 300;

/// How many processors have a program.
const PROGRAMS: usize = 6;

/// A word: mostly an instruction on one of four channels, else any.
fn odd_word(chance: &mut Chance) -> u16 {
    let kind = chance.next() % 10;
    let c = chance.next() % 4;
    match kind {
        0 | 1 => 0o7400 + c,
        2 | 3 => 0o7200 + c,
        4 | 5 => 0o7000 + c,
        6 => 0o7500 + c,
        7 => 0o7600 + c,
        8 => 0o1400 + chance.next() % 64,
        _ => chance.next(),
    }
}

/// A machine with such programs.
fn odd_machine(alloc: Global, chance: &mut Chance) -> Result<Machine<Global>, CentralFault> {
    let mut machine = Machine::new(alloc, Profile::Twenty, 64)?;
    for place in 0..PROGRAMS {
        let mut words = [0; 32];
        for word in &mut words {
            *word = odd_word(chance);
        }
        put_program(machine.pp_mut(PpNo::at(place)), 0o100, &words);
    }
    Ok(machine)
}

/// The drawing of a machine's run in a window of turns, which has to be well-formed.
fn drawing<R: AllocGlobal + Abort>(
    rt: &R,
    machine: &mut Machine<Global>,
    window: Window,
) -> String {
    let alloc = rt.alloc();
    let order = Order::of_run(alloc, &[], machine.profile(), window.to).expect(rt, "an order");
    let steps = run_seeing_steps(alloc, machine, &order, window).expect(rt, "steps");
    let mut written = Vec::new(alloc);
    let drawn = write_drawing(&mut written, machine, &[true; PROCESSORS], &steps, window);
    let text = String::from_utf8(written).expect(rt, "a text");
    assert!(rt; drawn.is_ok() && is_well_formed(alloc, &text));
    text
}

/// Whether the drawing of an odd program's run shows words that were lost.
fn loses_words<R: AllocGlobal + Abort>(rt: &R, chance: &mut Chance) -> bool {
    let mut machine = odd_machine(rt.alloc(), chance).expect(rt, "a machine");
    let from = u32::from(chance.next() % 100);
    let to = from + u32::from(chance.next() % 500);
    drawing(rt, &mut machine, Window { from, to }).contains(" lost ")
}

#[test]
fn odd_programs_are_drawn(rt: HostRuntime) {
    let mut chance = Chance::new(1);
    let mut is_lost = false;
    for _ in 0..RUNS {
        is_lost |= loses_words(&rt, &mut chance);
    }
    assert!(rt; is_lost, "in some runs");
}

/// Whether a drawing has no turns, and nothing of the machine is in its lanes.
fn has_no_turns(drawing: &str) -> bool {
    drawing.contains("turns 30 to 20")
        && drawing.contains("<rect class='u' y='30' width='0' height='1'/>")
        && !drawing.contains("<rect class='i' x='0' y")
}

#[test]
fn a_window_with_its_ends_exchanged(rt: HostRuntime) {
    let mut machine = Machine::new(rt.alloc(), Profile::Ten, 64).expect(&rt, "a machine");
    put_program(
        machine.pp_mut(PpNo::at(0)),
        0o100,
        &[0o7405, 0o7505, 0o0300],
    );
    let drawing = drawing(&rt, &mut machine, Window { from: 30, to: 20 });
    assert!(rt; has_no_turns(&drawing));
}
