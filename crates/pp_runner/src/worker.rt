ghost use Rattle.std.specs.Prelude.{◌≡◌, IfOk, map};
ghost use Rattle.pp_runner.specs.Crew.{worker_of};

use crate::End;
use pp_channel::Memory;
use pp_line::Entry;
use pp_machine::{Answer, Pp};
use std::alloc::Allocator;

/// What a worker leaves: its processor, what it did and saw on the channels, the answers of the
/// steps that moved its processor, in order, and how it ended.
#[derive(Drop)]
pub struct Worker<A: Allocator> {
    pub pp: Pp,
    pub log: Vec<Entry, A>,
    pub answers: Vec<Answer, A>,
    pub finish: End,
}

/// What a worker leaves but for its log, which its line has until all lines are closed.
#[derive(Drop)]
pub struct Ended<A: Allocator> {
    pub pp: Pp,
    pub answers: Vec<Answer, A>,
    pub finish: End,
}

/// The workers that have ended, each with its log.
pub fn workers<A: Allocator>(
    alloc: A,
    crew: Vec<(Ended<A>, Vec<Entry, A>), A>,
) -> Result<Vec<Worker<A>, A>, Memory>
    ensures { IfOk result (λ workers. workers.items ≡ map worker_of crew.items) }
{
    let mut workers = Vec::with_capacity(alloc, crew.len())?;
    for (ended, log) in crew {
        workers.push_reserved(Worker {
            pp: ended.pp,
            log,
            answers: ended.answers,
            finish: ended.finish,
        });
    }
    Ok(workers)
}
