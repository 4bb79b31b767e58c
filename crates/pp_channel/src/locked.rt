ghost use Rattle.std.specs.Prelude.{◌≡◌, true, IfOk, IsOk};
ghost use Rattle.pp_channel.specs.Answer.{IsLockedAnswer, only_looks};
ghost use Rattle.pp_channel.specs.History.{IsLawful, HasTwelveBitWords};

use crate::{ChanOp, Channel, Memory, Numbered};
use std::alloc::Allocator;
use std::sync::{Mutex, Wait};

/// A channel behind a lock. Each value behind it has a lawful history.
#[derive(Drop)]
pub struct Locked<A: Allocator> {
    channel: Mutex<Channel<A>>,
}

impl<A: Allocator> Locked<A> {
    /// The channel, which threads may now share.
    pub fn new(channel: Channel<A>) -> Self {
        let channel = Mutex::new(channel);
        Locked { channel }
    }

    /// Makes the operation under the lock if it is ready, and otherwise holds it. `number` and
    /// `loaded` are the length of some lawful history that gives the answer; tests show that it is
    /// the channel's own, and that nothing has changed after `Memory`.
    pub fn act(&self, rt: &impl Wait, op: ChanOp) -> Result<Numbered, Memory>
        ensures answer { IfOk result (λ r. IsLockedAnswer op r) }
        ensures look_takes_no_memory { only_looks op ≡ true → IsOk result }
    {
        let mut channel = self.channel.lock(rt);
        let number = channel.history().len() as u64;
        let reply = channel.act(op)?;
        Ok(Numbered {
            reply,
            loaded: number,
            number,
        })
    }

    /// The channel, which is no longer shared.
    pub fn into_inner(self) -> Channel<A>
        ensures lawful { IsLawful result }
        ensures twelve_bits { HasTwelveBitWords result }
    {
        let channel = self.channel.into_inner();
        // Reveals to the proof that the history is lawful.
        let _history = channel.history();
        channel
    }
}
