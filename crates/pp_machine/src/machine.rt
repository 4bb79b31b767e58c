ghost use Rattle.std.specs.Prelude.{◌≡◌, ◌<◌, ℕ, ◌++◌, [], length, replicate, slice_index_or, slice_set, IfOk, OnOk, IsErrOf, IsTrue, ◌↔◌, vec_len};
ghost use Rattle.std.specs.Bool.{OnFalse};
ghost use Rattle.pp_numbers.specs.ChannelNo.{channel_count, channel_index, names_channel};
ghost use Rattle.pp_numbers.specs.PpNo.{processor_count};
ghost use Rattle.pp_channel.specs.{History.IsLawful, Law.KeepsLaw};
ghost use Rattle.pp_processor.specs.Processor.{new_processor};
ghost use Rattle.pp_machine.specs.Central.{IsCentralSize};
ghost use Rattle.pp_machine.specs.Headline.{HoldsOnChannel, IsMachine, events_on, opening_history};
ghost use Rattle.pp_machine.specs.MachineState.{MachineState, history_of, new_machine, processor_of};

use crate::{Central, CentralFault, Pp, Trace};
use pp_channel::{CHANNELS, Channel, ChannelNo, Memory};
use pp_numbers::{PROCESSORS, PpNo, Profile};
use pp_word::{Word18, Word60};
use std::alloc::{AllocError, Allocator};
use std::marker::Model;

/// A machine. Contracts see it as a `MachineState`: its channels only by their histories.
#[derive(Drop)]
pub struct Machine<A: Allocator> {
    pub(crate) profile: Profile,
    pub(crate) processors: Vec<Pp, A>,
    pub(crate) channels: Vec<Channel<A>, A>,
    pub(crate) central: Central<A>,
    pub(crate) turns: u64,
    pub(crate) trace: Vec<Trace, A>,
    pub(crate) opened: [bool; CHANNELS],
}

impl<A: Allocator> Model for Machine<A> {
    ghost Value = { MachineState };

    ghost view = { λ m. record {
      profile = m.profile;
      processors = m.processors.items;
      histories = m.channels.items;
      central = m.central;
      turns = m.turns;
      trace = m.trace.items;
      opened = m.opened;
    } };

    ghost invariant = { λ m. IsMachine (record {
      profile = m.profile;
      processors = m.processors.items;
      histories = m.channels.items;
      central = m.central;
      turns = m.turns;
      trace = m.trace.items;
      opened = m.opened;
    }) };
}

impl<A: Allocator> Machine<A> {
    ghost use Rattle.std.specs.Borrow.{sem};
    ghost use Rattle.pp_machine.specs.Lending.{LendsProcessor};

    /// A machine of this profile, with central memory of `size` words, all 0: its processors as
    /// `Pp::new(profile)`, its channels without history, no turn counted. Processors and channels
    /// that the profile lacks come after the others, and have no turn of the barrel.
    #[tactic(auto, using(pp_numbers::specs::ChannelNo::channel_places))]
    pub fn new(alloc: A, profile: Profile, size: u32) -> Result<Self, CentralFault>
    where
        A: Copy,
        ensures ok { IfOk result (λ m. m ≡ new_machine profile size) }
        ensures sized { OnOk result (IsCentralSize size) }
        ensures bad_size { IsErrOf result CentralFault.BadSize ↔ ¬ IsCentralSize size }
    {
        let central = Central::new(alloc, size)?;
        Ok(Machine {
            profile,
            processors: new_processors(alloc, profile)?,
            channels: new_channels(alloc)?,
            central,
            turns: 0,
            trace: Vec::new(alloc),
            opened: [false; CHANNELS],
        })
    }

    /// Which processors and channels it has.
    pub fn profile(&self) -> Profile
        ensures { result ≡ self.now.profile }
    {
        self.profile
    }

    /// The number of turns counted (decimal), which stays at the greatest count.
    pub fn turns(&self) -> u64
        ensures { result ≡ self.now.turns }
    {
        self.turns
    }

    /// What is true of each machine.
    pub fn is_sound(&self)
        ensures { IsMachine self.now }
    {
        // Reveals it to the proof.
        let _turns = self.turns;
    }

    /// All events that its steps made, in order.
    pub fn events(&self) -> &[Trace]
        ensures { result.now ≡ self.now.trace }
    {
        self.trace.as_slice()
    }

    /// A processor.
    pub fn pp(&self, n: PpNo) -> &Pp
        ensures { result.now ≡ processor_of n self.now }
    {
        &self.processors[n.index()]
    }

    /// A channel.
    pub fn channel(&self, ch: ChannelNo) -> &Channel<A>
        ensures value { result.now ≡ history_of ch self.now }
        ensures traced { result.now ≡ opening_history ch self.now ++ events_on ch self.now.trace }
        ensures lawful { IsLawful result.now }
        ensures law { KeepsLaw result.now }
    {
        &self.channels[ch.index()]
    }

    /// How many events each channel has, by its place.
    pub fn event_counts(&self) -> [usize; CHANNELS]
        ensures { (c : ℕ) → IsTrue (names_channel c)
            → slice_index_or result (channel_index c) 0 ≡ length (history_of c self.now) }
    {
        let mut counts = [0; CHANNELS];
        for place in 0..CHANNELS {
            counts[place] = self.channel(ChannelNo::at(place)).history().len();
        }
        counts
    }

    /// Makes room for these numbers of further events, by the places of the channels: a run then
    /// takes no memory for them, as tests show.
    pub fn reserve(&mut self, events: &[usize; CHANNELS]) -> Result<(), Memory>
        ensures { self.new ≡ self.old }
    {
        let all = reserve_each(&mut self.channels, events)?;
        Ok(self.trace.reserve_exact(all)?)
    }

    /// Central memory.
    pub fn central(&self) -> &Central<A>
        ensures { result.now ≡ self.now.central }
    {
        &self.central
    }

    /// Writes a central word, as `Central::write` does.
    pub fn write_central(&mut self, a: Word18, w: Word60) -> bool
        ensures within { IsTrue result ↔ (a < length self.old.central) }
        ensures written { self.new ≡ record self.old { central = slice_set self.old.central a w } }
        ensures refused { OnFalse result (self.new ≡ self.old) }
    {
        self.central.write(a, w)
    }

    /// Lends a processor, to be loaded and started.
    pub fn pp_mut(&mut self, n: PpNo) -> &mut Pp
        ensures* lends { sem 𝓛 (LendsProcessor A.row A.Allocator self.entry n result) }
        ensures value { result.now ≡ processor_of n self.old }
    {
        &mut self.processors[n.index()]
    }
}

fn new_processors<A: Allocator>(alloc: A, profile: Profile) -> Result<Vec<Pp, A>, AllocError>
    ensures { IfOk result (λ v. v.items ≡ replicate processor_count (new_processor profile)) }
{
    let mut processors = Vec::with_capacity(alloc, PROCESSORS)?;
    for _ in 0..PROCESSORS {
        processors.push_reserved(Pp::new(profile));
    }
    Ok(processors)
}

fn new_channels<A: Allocator + Copy>(alloc: A) -> Result<Vec<Channel<A>, A>, AllocError>
    ensures items { IfOk result (λ v. v.items ≡ replicate channel_count []) }
    ensures headline { IfOk result (λ v. (k : ℕ) → k < channel_count
        → HoldsOnChannel [] [] (slice_index_or v.items k [])) }
{
    let mut channels = Vec::with_capacity(alloc, CHANNELS)?;
    for _ in 0..CHANNELS {
        let channel = Channel::new(alloc);
        // Reveals to the proof that the history is lawful.
        let _history = channel.history();
        channels.push_reserved(channel);
    }
    Ok(channels)
}

/// Makes room for these numbers of further events, by place of the channel, and returns their sum.
fn reserve_each<A: Allocator>(
    channels: &mut Vec<Channel<A>, A>,
    events: &[usize; CHANNELS],
) -> Result<usize, Memory>
    requires { vec_len channels.old ≡ channel_count }
    ensures { channels.new.items ≡ channels.old.items }
{
    let mut all: usize = 0;
    for place in 0..CHANNELS {
        let more = events[place];
        channels[place].reserve(more)?;
        all = all.saturating_add(more);
    }
    Ok(all)
}
