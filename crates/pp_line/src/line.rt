mod closing;

ghost use Rattle.std.specs.Prelude.{◌≡◌, ◌<◌, ◌≤◌, ◌+◌, ◌-◌, ◌^◌, ◌↔◌, ℕ, List, [], ◌∷◌, ◌++◌, true, IfOk, OnOk, OnErr, IfErr, IfSome, IfNone, IsTrue, MatchBool, length, slice_index};
ghost use Rattle.pp_line.specs.Types.{Event, LineView};
ghost use Rattle.pp_numbers.specs.ChannelNo.{channel_count};
ghost use Rattle.pp_line.specs.LineLog.{IsMonotone, IsWithin, seen_on, empty_log, event_entry, look_entry, appended, looked};
ghost use Rattle.pp_line.specs.LineState.{LineState, IsSplitFrom, joined, SeesAtLeast, IsActed, IsWornOut, AreClosed, AreInOneOrder};
ghost use Rattle.pp_line.specs.LineSteps.{IsLoad, IsWonExchange, IsLostExchange, IsLogOf};
ghost use Rattle.pp_line.specs.LineView.{first_view, finds, reads, writes, parent_view, with_unrecorded_load, greater_of_each};
ghost use Rattle.pp_line.specs.ChannelWord.{history_word, number_in, flags_in};
ghost use Rattle.pp_channel.specs.History.{IsLawful, HasTwelveBitWord, HasTwelveBitWords};

use crate::line_log::LineLog;
use crate::recorded_history::recorded_channels;
use crate::shared_words::SharedWords;
use crate::word_step::{flags_in, number_in, state_in};
use crate::{Entry, WordStep, Worn, advance};
pub use closing::Closed;
use pp_channel::{
    CHANNELS, ChanOp, Channel, ChannelNo, Event, Memory, Numbered, Reply, reply_shown,
};
use pp_word::{Word18, Word60};
use std::alloc::Allocator;
use std::marker::Model;

/// One thread's access to all channels, which it shares with other lines without a lock.
/// Contracts see its log, and its view: what it knows of the channels, and its shares.
#[derive(Drop)]
pub struct Line<A: Allocator> {
    alloc: A,
    words: SharedWords<A>,
    log: LineLog<A>,
    seen: [u64; CHANNELS],
    shares: u32,
    whole: u32,
}

impl<A: Allocator> Model for Line<A> {
    ghost Value = { LineState };

    ghost view = { λ line. record {
      log = line.log;
      view = line.words.seat.me.0;
      table = line.words.seat.table_id;
    } };

    ghost invariant = { λ line. (line.seen ≡ line.words.seat.me.0.seen)
        × (line.shares ≡ line.words.seat.me.0.shares)
        × (line.whole ≡ line.words.seat.me.0.whole)
        × IsLogOf line.words.seat.me.0 line.log.entries };
}

/// Opens all channels, without history: the first line of their family, which holds all `lines`
/// shares, at least 1, with room for `room` entries in its log.
pub fn open_lines<A: Allocator + Copy>(alloc: A, room: u32, lines: u32) -> Result<Line<A>, Memory>
    requires { 1 ≤ lines }
    ensures log { IfOk result (λ line. line.log ≡ empty_log room) }
    ensures view { IfOk result (λ line. line.view ≡ first_view lines []) }
{
    open_lines_beside(alloc, room, lines, &[])
}

/// The same, beside central memory of these words, which the lines share too.
pub fn open_lines_beside<A: Allocator + Copy>(
    alloc: A,
    room: u32,
    lines: u32,
    central: &[Word60],
) -> Result<Line<A>, Memory>
    requires lines { 1 ≤ lines }
    requires small { (address : ℕ) → slice_index central.now address < 2 ^ 60 }
    ensures log { IfOk result (λ line. line.log ≡ empty_log room) }
    ensures view { IfOk result (λ line. line.view ≡ first_view lines central.now) }
{
    let log = LineLog::new(alloc, room)?;
    let words = SharedWords::open(alloc, u64::from(lines), central)?;
    Ok(Line {
        alloc,
        words,
        log,
        seen: [0; CHANNELS],
        shares: lines,
        whole: lines,
    })
}

impl<A: Allocator + Copy> Line<A> {
    /// What it did and saw, in order. Every entry lies within what it has seen: an event's number
    /// is below `seen` of its channel, a look's at most that.
    pub fn log(&self) -> &[Entry]
        ensures value { result.now ≡ self.now.log.entries }
        ensures within { IsWithin self.now.view.seen self.now.log.entries }
        ensures each_channel { length self.now.view.seen ≡ channel_count }
    {
        self.log.entries.as_slice()
    }

    /// How many more entries its log has room for.
    pub fn room(&self) -> u32
        ensures { result ≡ self.now.log.room }
    {
        self.log.room
    }

    /// How many events of the channel it has seen.
    pub fn seen(&self, channel: ChannelNo) -> u64
        ensures { result ≡ seen_on channel self.now.view.seen }
    {
        self.seen[channel.index()]
    }

    /// Its shares.
    pub fn shares(&self) -> u32
        ensures value { result ≡ self.now.view.shares }
        ensures at_least_one { 1 ≤ result }
    {
        self.shares
    }

    /// How many shares there are in all.
    pub fn whole(&self) -> u32
        ensures { result ≡ self.now.view.whole }
    {
        self.whole
    }

    /// Whether the last entry of its log stays when a look at the same channel follows. It does on
    /// a new line, on a joined one and after `keep`, until `act` answers.
    pub fn kept(&self) -> bool
        ensures { result ≡ self.now.log.kept }
    {
        self.log.kept
    }

    /// Keeps the last entry of its log, even if a look at the same channel follows.
    pub fn keep(&mut self)
        ensures { self.new ≡ record self.old { log = record self.old.log { kept = true } } }
    {
        self.log.kept = true;
    }

    /// A line of one share, for another thread, with room for `room` entries in a log of its own.
    /// It has seen what this line has seen. This line needs at least 2 shares and has one less
    /// afterwards. It makes one load; after `Memory` nothing has changed.
    pub fn split(&mut self, room: u32) -> Result<Line<A>, Memory>
        requires { 2 ≤ self.old.view.shares }
        ensures parent { IfOk result (λ line.
            self.new ≡ record self.old { view = parent_view self.old.view }) }
        ensures line { IfOk result (λ line. IsSplitFrom self.old room line) }
        ensures whole { self.new.view.whole ≡ self.old.view.whole }
        ensures table { self.new.table ≡ self.old.table }
        ensures unchanged_after_memory { OnErr result (self.new ≡ self.old) }
    {
        let log = LineLog::new(self.alloc, room)?;
        let words = self.words.split()?;
        self.shares -= 1;
        Ok(Line {
            alloc: self.alloc,
            words,
            log,
            seen: self.seen,
            shares: 1,
            whole: self.whole,
        })
    }

    /// Makes the operation if the channel is ready for it, and looks if not: one load of the
    /// channel's word, and at most one exchange. It needs room for 1 entry, takes no memory and
    /// never waits.
    ///
    /// `loaded` is how many events the load found. `number` is the same, and for an event its place
    /// in the history; but an operation whose exchange was lost to another line is held with the
    /// flags and the number that the exchange found. An event goes to the log, and so does a look,
    /// which takes the place of a last look at the same channel that was not kept; `room` falls if
    /// the log grows. `seen` of the channel becomes one more than the number of an event, and the
    /// number of a look; `kept` becomes false. `Worn` is returned only for an operation that does
    /// more than look, if the load found 2^50 - 1 events; then only `seen` of the channel has
    /// changed.
    #[inline(always)]
    pub fn act(&mut self, channel: ChannelNo, op: ChanOp) -> Result<Numbered, Worn>
        requires { 1 ≤ self.old.log.room }
        ensures ok { IfOk result (λ r. IsActed self.old channel op r self.new) }
        ensures worn { OnErr result (IsWornOut self.old channel op self.new) }
        ensures monotone { IsMonotone self.old.log.entries → IsMonotone self.new.log.entries }
        ensures shares { self.new.view.shares ≡ self.old.view.shares }
        ensures whole { self.new.view.whole ≡ self.old.view.whole }
        ensures table { self.new.table ≡ self.old.table }
        ensures within { IsWithin self.new.view.seen self.new.log.entries }
    {
        let word = self.load(channel);
        let loaded = number_in(word);
        let (reply, number) = match advance(word, op) {
            WordStep::Worn => return Err(Worn),
            WordStep::Look(_) | WordStep::Held(_) => {
                self.look(channel, word);
                (reply_shown(&op, &state_in(word)), loaded)
            }
            WordStep::Next(next, reply, event) => {
                match self.try_event(channel, word, next, event) {
                    Ok(()) => (reply, loaded),
                    Err(found) => (Reply::Held(flags_in(found)), number_in(found)),
                }
            }
        };
        Ok(Numbered {
            reply,
            loaded,
            number,
        })
    }

    /// The word of central memory at an address, or nothing at or past the size. It makes one load.
    pub fn read(&mut self, address: Word18) -> Option<Word60>
        ensures read { IfSome result (λ word. self.new
            ≡ record self.old { view = reads self.old.view address word }) }
        ensures inside { IfSome result (λ word. address < length self.old.view.central) }
        ensures outside { IfNone result (length self.old.view.central ≤ address) }
        ensures unchanged_outside { IfNone result (self.new ≡ self.old) }
    {
        self.words.read(address)
    }

    /// Writes the word of central memory at an address, by one store; at or past the size it
    /// returns false, and nothing changes.
    pub fn write(&mut self, address: Word18, word: Word60) -> bool
        ensures inside { IsTrue result ↔ (address < length self.old.view.central) }
        ensures written { MatchBool result
            ((number : ℕ) × (self.new
            ≡ record self.old { view = writes self.old.view address word number }))
            (self.new ≡ self.old) }
    {
        self.words.write(address, word)
    }

    /// The word of the channel. The line has then seen all events that the word counts.
    fn load(&mut self, channel: ChannelNo) -> u64
        ensures load { IsLoad channel self.old.view result self.new.view }
        ensures log { self.new.log ≡ self.old.log }
        ensures table { self.new.table ≡ self.old.table }
        ensures log_before { IsLogOf self.old.view self.old.log.entries }
        ensures log_after { IsLogOf self.new.view self.new.log.entries }
    {
        let word = self.words.load(channel);
        self.seen[channel.index()] = number_in(word);
        word
    }

    /// Logs a look at the channel, by the word that the line found last.
    fn look(&mut self, channel: ChannelNo, word: u64)
        requires room { 1 ≤ self.old.log.room }
        requires found { (v : LineView) × IsLogOf v self.old.log.entries
            × IsLoad channel v word self.old.view }
        ensures written { self.new.log ≡ looked self.old.log
            (look_entry channel (number_in word) (flags_in word)) }
        ensures view { self.new.view ≡ self.old.view }
        ensures table { self.new.table ≡ self.old.table }
        ensures log_after { IsLogOf self.new.view self.new.log.entries }
    {
        self.log.saw(channel, number_in(word), flags_in(word));
    }

    /// Tries once to make the event, if the channel still has the word that was loaded. If it has
    /// another by now, the line finds that word, and logs a look by it.
    #[inline(always)]
    fn try_event(
        &mut self,
        channel: ChannelNo,
        word: u64,
        next: u64,
        event: Event,
    ) -> Result<(), u64>
        requires room { 1 ≤ self.old.log.room }
        requires loaded { (v : LineView) × (self.old.view ≡ finds v channel word) }
        requires next { (h : List Event) → IsLawful h → HasTwelveBitWords h → history_word h ≡ word
            → IsLawful (h ++ event ∷ []) × HasTwelveBitWord event
            × (history_word (h ++ event ∷ []) ≡ next) }
        ensures won { OnOk result (IsWonExchange channel self.old.view word event self.new.view) }
        ensures event_written { OnOk result (self.new.log
            ≡ appended self.old.log (event_entry channel (number_in word) event)) }
        ensures lost { IfErr result (λ found.
            IsLostExchange channel word self.old.view found self.new.view) }
        ensures look_written { IfErr result (λ found.
            self.new.log ≡ looked self.old.log
            (look_entry channel (number_in found) (flags_in found))) }
        ensures table { self.new.table ≡ self.old.table }
        ensures log_after { IsLogOf self.new.view self.new.log.entries }
    {
        let found = self.words.exchange(channel, word, next, &event);
        let number = number_in(found);
        if found == word {
            self.seen[channel.index()] = number + 1;
            self.log.did(channel, number, event);
            return Ok(());
        }
        self.seen[channel.index()] = number;
        self.look(channel, found);
        Err(found)
    }

    /// This line and another of its family (from the same `open_lines`) as one: the log has this
    /// line's entries and then the other's, the room is this line's, shares add up, and `seen` is
    /// the greater of the two for each channel. It makes two loads. After `Memory` both come back
    /// unchanged.
    pub fn join(mut self, other: Line<A>) -> Result<Line<A>, (Line<A>, Line<A>, Memory)>
        requires { other.table ≡ self.table }
        ensures ok { IfOk result (λ line. line ≡ joined self other) }
        ensures nothing_forgotten { IfOk result (λ line. SeesAtLeast self line
            × SeesAtLeast other line) }
        ensures unchanged_after_memory { IfErr result (λ refused. (refused.0 ≡ self)
            × (refused.1 ≡ other)) }
    {
        if let Err(memory) = self.log.append(&other.log) {
            return Err((self, other, memory));
        }
        self.words.join(other.words);
        self.words.check_shares(ChannelNo::at(0));
        self.shares += other.shares;
        self.seen = greater_of_each(&self.seen, &other.seen);
        Ok(self)
    }

    /// The channels, from the line that holds every share of its family: their histories are the
    /// events of its log, each at its number; and one total order over all channels extends its
    /// program orders. It makes one load; a line that comes back after `Memory` differs in nothing
    /// else.
    pub fn close(mut self) -> Result<[Channel<A>; CHANNELS], (Line<A>, Memory)>
        requires { self.view.shares ≡ self.view.whole }
        ensures ok { IfOk result (λ channels. AreClosed self channels) }
        ensures order { IfOk result (λ channels. AreInOneOrder self.view.central channels
            (self ∷ [])) }
        ensures unchanged_after_memory { IfErr result (λ refused.
            refused.0 ≡ record self { view = with_unrecorded_load self.view }) }
    {
        self.words.check_shares(ChannelNo::at(0));
        let line = &self;
        let others: [((), Vec<Entry, A>); 0] = [];
        match recorded_channels(line.alloc, line.log.entries.as_slice(), &others, &line.seen) {
            Ok(channels) => Ok(channels),
            Err(memory) => Err((self, memory)),
        }
    }
}

/// The greater number for each channel.
fn greater_of_each(one: &[u64; CHANNELS], other: &[u64; CHANNELS]) -> [u64; CHANNELS]
    ensures { result ≡ greater_of_each one.now other.now }
{
    let mut greater = *one;
    for (place, number) in other.iter().enumerate() {
        greater[place] = greater[place].max(*number);
    }
    greater
}
