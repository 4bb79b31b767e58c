ghost use Rattle.std.specs.Prelude.{◌≡◌, ◌+◌, IfOk};
ghost use Rattle.pp_ends.specs.Loops.{AreLoops, noted, widened};

use crate::Ending;
use crate::quiet::step_moves;
use crate::run::{barrel_order, run_to_last_move};
use pp_channel::Memory;
use pp_machine::{Machine, PROCESSORS, PpNo};
use pp_run::BareMachine;
use pp_word::Word12;
use std::alloc::Allocator;

/// The lowest and the highest P of the steps of a processor that move.
#[derive(Clone, Copy)]
pub struct Loop {
    pub first: Word12,
    pub last: Word12,
}

/// The loops of the processors, in the order of the barrel, where a run of this machine, as it was
/// loaded, repeats: of each the steps of one period count. A processor that doesn't move has none;
/// nor has any where the ending is another. The machine is only read: a copy makes the run.
pub fn find_loops<A: Allocator + Copy, B: Allocator>(
    alloc: A,
    machine: &Machine<B>,
    ending: Ending,
) -> Result<[Option<Loop>; PROCESSORS], Memory>
    ensures { IfOk result (λ loops. AreLoops loops ending machine.now) }
{
    let mut loops = [None; PROCESSORS];
    let Ending::Repeats { from, every } = ending else {
        return Ok(loops);
    };
    // No order has more steps than 32 bits count.
    let Some(end) = from.checked_add(every) else {
        return Err(Memory);
    };
    let order = barrel_order(alloc, machine, end)?;
    let order = order.processors();
    let mut bare = BareMachine::of(alloc, machine)?;
    let _still = run_to_last_move(&mut bare, &order[..from as usize]);
    for turn in from..end {
        let n = order[turn as usize];
        let p = bare.pp(n).p();
        let moved = step_moves(&mut bare, n);
        note(&mut loops, n, p, moved);
    }
    Ok(loops)
}

/// Notes a step of a processor, by its P before and by whether it moved.
fn note(loops: &mut [Option<Loop>; PROCESSORS], n: PpNo, p: Word12, moved: bool)
    ensures { loops.new ≡ noted loops.old n p moved }
{
    if moved {
        let place = n.index();
        loops[place] = Some(widened(loops[place], p));
    }
}

/// A loop with one more place.
fn widened(found: Option<Loop>, p: Word12) -> Loop
    ensures { result ≡ widened found p }
{
    match found {
        None => Loop { first: p, last: p },
        Some(Loop { first, last }) => Loop {
            first: if p.get() < first.get() { p } else { first },
            last: if last.get() < p.get() { p } else { last },
        },
    }
}
