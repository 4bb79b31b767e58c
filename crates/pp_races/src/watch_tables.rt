//! The tables by which a run is watched.

ghost use Rattle.std.specs.Prelude.{◌≡◌, IfOk, length, vec_len};
ghost use Rattle.pp_numbers.specs.ChannelNo.{channel_count};
ghost use Rattle.pp_races.specs.Tables.{entry_count, AreEmpty, AreUses};
ghost use Rattle.pp_races.specs.Watch.{unwatched};

use crate::by_flags::ByFlags;
use crate::channel_events::ChannelEvents;
use crate::cursor::Cursor;
use crate::word_use::WordUse;
use crate::{AskingStep, Finding};
use pp_channel::{CHANNELS, Memory};
use pp_machine::{Machine, PROCESSORS};
use std::alloc::Allocator;

/// For each of the flags of a channel, the first look of a processor, since its last event there,
/// that would have done otherwise at them.
pub(crate) type Looks = ByFlags<Option<AskingStep>>;

/// What is kept of a run as it goes, and what was found of its last step, not yet printed: by
/// channel the events, by processor and channel a cursor and looks, and by address the uses.
#[derive(Drop)]
pub(crate) struct WatchTables<A: Allocator> {
    pub(crate) events: Vec<ChannelEvents<A>, A>,
    pub(crate) cursors: Vec<Cursor, A>,
    pub(crate) looks: Vec<Looks, A>,
    pub(crate) uses: Vec<WordUse, A>,
    pub(crate) found: Vec<Finding, A>,
    ghost channels: { vec_len events ≡ channel_count },
    ghost all_cursors: { vec_len cursors ≡ entry_count },
    ghost all_looks: { vec_len looks ≡ entry_count },
}

impl<A: Allocator> WatchTables<A> {
    ghost use Rattle.pp_races.specs.WatchTables.{AreTables};

    /// Those before the first step, with room for so many events of each channel, by place.
    pub(crate) fn of(
        alloc: A,
        machine: &Machine<A>,
        counts: &[usize; CHANNELS],
    ) -> Result<Self, Memory>
    where
        A: Copy,
        ensures { IfOk result (λ tables. AreTables tables (length machine.now.central) unwatched) }
    {
        Ok(WatchTables {
            events: no_events(alloc, counts)?,
            cursors: vec![in alloc; Cursor::first(); ENTRIES]?,
            looks: vec![in alloc; ByFlags::all(None); ENTRIES]?,
            uses: first_uses(alloc, machine)?,
            // No more is found of a step, or of the end, than there are processors.
            found: Vec::with_capacity(alloc, PROCESSORS)?,
        })
    }
}

/// How many entries there are of processors and channels (decimal).
const ENTRIES: usize = PROCESSORS * CHANNELS;

/// No central word was used.
#[tactic(auto, using(crate::proofs::UseLemmas::replicate_unused))]
fn first_uses<A: Allocator + Copy>(
    alloc: A,
    machine: &Machine<A>,
) -> Result<Vec<WordUse, A>, Memory>
    ensures words { IfOk result (λ table. length table.items ≡ length machine.now.central) }
    ensures unused { IfOk result (λ table. AreUses unwatched table.items) }
{
    Ok(vec![in alloc; WordUse::unused(); machine.central().size() as usize]?)
}

/// No event was made.
fn no_events<A: Allocator + Copy>(
    alloc: A,
    counts: &[usize; CHANNELS],
) -> Result<Vec<ChannelEvents<A>, A>, Memory>
    ensures channels { IfOk result (λ table. length table.items ≡ channel_count) }
    ensures empty { IfOk result (λ table. AreEmpty table.items) }
{
    let mut table = Vec::with_capacity(alloc, CHANNELS)?;
    for count in counts {
        table.push(ChannelEvents::with_capacity(alloc, *count)?)?;
    }
    Ok(table)
}
