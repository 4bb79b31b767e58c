ghost use Rattle.std.specs.Prelude.{◌≡◌, ◌≤◌, [], ◌∷◌, take, IsTrue, OnOk, OnErr};
ghost use Rattle.pp_channel.specs.declared.event.Event.TheVariants.{Activate};
ghost use Rattle.pp_numbers.specs.PpNo.{processor_count, names_processor};
ghost use Rattle.pp_machine.specs.DeadStart.{IsBeforeFirstTurn, WaitsWithin, dead_started, with_waiting};
ghost use Rattle.pp_machine.specs.Headline.{HoldsOnEachChannel};
ghost use Rattle.pp_machine.specs.MachineState.{history_of, is_opened};

use crate::Machine;
use pp_channel::{ChanOp, Channel, ChannelNo, Memory};
use pp_numbers::{PROCESSORS, PpNo};
use std::alloc::Allocator;

impl<A: Allocator> Machine<A> {
    /// Whether dead start opened the channel.
    pub fn opened(&self, ch: ChannelNo) -> bool
        ensures { result ≡ is_opened ch self.now }
    {
        self.opened[ch.index()]
    }

    /// Makes processors wait for their programs, each on the channel of its own number, which is
    /// then active and empty; `waiting` has the processors in the barrel's order, and false for
    /// those that the profile lacks. No turn is counted yet, and no channel has a history. These
    /// Activates are in no trace. After `Memory` nothing has changed.
    pub fn dead_start(&mut self, waiting: &[bool; PROCESSORS]) -> Result<(), Memory>
    where
        A: Clone,
        requires fresh { IsBeforeFirstTurn self.old }
        requires within { WaitsWithin self.old.profile waiting.now }
        ensures ok { OnOk result (self.new ≡ dead_started waiting.now self.old) }
        ensures unchanged_after_memory { OnErr result (self.new ≡ self.old) }
        ensures headline { HoldsOnEachChannel self.new }
    {
        let answer = self.open_below(waiting, PROCESSORS);
        self.is_sound();
        answer
    }

    /// The same for the first `count` processors alone. All channels are made before one is put in.
    fn open_below(&mut self, waiting: &[bool; PROCESSORS], count: usize) -> Result<(), Memory>
    where
        A: Clone,
        requires count { count ≤ processor_count }
        requires before { IsBeforeFirstTurn self.old }
        ensures ok { OnOk result (self.new ≡ dead_started (take count waiting.now) self.old) }
        ensures unchanged_after_memory { OnErr result (self.new ≡ self.old) }
    {
        self.is_sound();
        if count == 0 {
            return Ok(());
        }
        let place = count - 1;
        if !waiting[place] {
            return self.open_below(waiting, place);
        }
        let n = PpNo::at(place);
        let mut channel = self.channel(own_channel(n)).copy()?;
        let _done = channel.act(ChanOp::Activate)?;
        self.open_below(waiting, place)?;
        self.let_wait(n, channel);
        Ok(())
    }

    /// Makes one processor wait, on the channel of its own number, which is `channel`, opened.
    fn let_wait(&mut self, n: PpNo, channel: Channel<A>)
        requires opened { channel ≡ Activate ∷ [] }
        requires unused { history_of n self.old ≡ [] }
        ensures { self.new ≡ with_waiting n self.old }
    {
        let own = own_channel(n);
        let i = own.index();
        // Reveals to the proof that the history is lawful.
        let _history = channel.history();
        self.processors[n.index()].wait_load(own);
        self.channels[i] = channel;
        self.opened[i] = true;
    }
}

#[tactic(auto, using(pp_numbers::proofs::PpNoLemmas::channel_of_processor))]
fn own_channel(n: PpNo) -> ChannelNo
    ensures value { result ≡ n }
    ensures named { IsTrue (names_processor n) }
{
    let Some(channel) = ChannelNo::new(n.get()) else {
        unreachable!()
    };
    channel
}
