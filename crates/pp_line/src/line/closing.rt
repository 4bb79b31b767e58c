ghost use Rattle.std.specs.Prelude.{◌≡◌, ◌∷◌, All, IfOk};
ghost use Rattle.std.specs.List.{AllZip};
ghost use Rattle.pp_line.specs.LineState.{all_joined, lines_of, IsLogBeside, SeesAtLeast, AreClosed, AreInOneOrder};
ghost use Rattle.pp_line.specs.LineSteps.{IsLogOf};
ghost use Rattle.pp_line.specs.LineView.{joined_view, with_unrecorded_load, greater_of_each};

use super::{Line, greater_of_each};
use crate::Entry;
use crate::recorded_history::recorded_channels;
use crate::shared_words::SharedWords;
use pp_channel::{CHANNELS, Channel, ChannelNo, Memory};
use std::alloc::Allocator;

/// What lines that were closed together leave.
#[derive(Drop)]
pub struct Closed<T, A: Allocator> {
    /// The log of each line but the first, beside the value that came with the line, in order.
    pub logs: Vec<(T, Vec<Entry, A>), A>,
    /// All channels, in order.
    pub channels: [Channel<A>; CHANNELS],
}

impl<A: Allocator + Copy> Line<A> {
    /// The channels of this line and others of its family, which hold every share between them:
    /// their histories are the events of all logs, each at its number. Each of the others comes
    /// with a value of the caller's, which is returned beside the line's log; no log is copied. One
    /// total order over all channels extends the program orders of all lines. It makes two loads
    /// for each of the others and one more; after `Memory` the lines are gone.
    pub fn close_with<T: Drop>(self, others: Vec<(T, Line<A>), A>) -> Result<Closed<T, A>, Memory>
        requires tables { All (λ other. other.1.table ≡ self.table) others.items }
        requires shares { (all_joined self (lines_of others.items)).view.shares
            ≡ self.view.whole }
        ensures channels { IfOk result (λ closed.
            AreClosed (all_joined self (lines_of others.items)) closed.channels) }
        ensures order { IfOk result (λ closed.
            AreInOneOrder self.view.central closed.channels (self ∷ lines_of others.items)) }
        ensures logs { IfOk result (λ closed.
            AllZip (λ other log. IsLogBeside other log) others.items closed.logs.items) }
        ensures nothing_forgotten { IfOk result (λ closed.
            All (λ line. SeesAtLeast line (all_joined self (lines_of others.items)))
            (lines_of others.items)) }
    {
        let Line {
            alloc,
            mut words,
            log,
            mut seen,
            ..
        } = self;
        let mut logs = Vec::with_capacity(alloc, others.len())?;
        for (value, other) in others {
            let log = absorb(&mut words, &mut seen, other);
            logs.push_reserved((value, log));
        }
        words.check_shares(ChannelNo::at(0));
        let channels = recorded_channels(alloc, log.entries.as_slice(), logs.as_slice(), &seen)?;
        Ok(Closed { logs, channels })
    }
}

/// Adds the shares of another line to these, with what it has seen, and returns its log.
fn absorb<A: Allocator + Copy>(
    words: &mut SharedWords<A>,
    seen: &mut [u64; CHANNELS],
    other: Line<A>,
) -> Vec<Entry, A>
    requires { other.table ≡ words.old.seat.table_id }
    ensures table { words.new.seat.table_id ≡ words.old.seat.table_id }
    ensures view { words.new.seat.me.0
        ≡ with_unrecorded_load (joined_view words.old.seat.me.0 other.view) }
    ensures seen { seen.new ≡ greater_of_each seen.old other.view.seen }
    ensures log { result.items ≡ other.log.entries }
    ensures log_of { IsLogOf other.view other.log.entries }
{
    words.join(other.words);
    words.check_shares(ChannelNo::at(0));
    *seen = greater_of_each(seen, &other.seen);
    other.log.entries
}
