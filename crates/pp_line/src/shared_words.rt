ghost use Rattle.std.specs.Prelude.{◌≡◌, ◌+◌, ◌-◌, ◌<◌, ◌≤◌, ◌^◌, ◌↔◌, ℕ, [], List, ◌∷◌, ◌++◌, length, replicate, slice_index, IfOk, IfSome, IfNone, IsTrue, MatchBool, OnErr};
ghost use Rattle.std.specs.Arc.{arc_value};
ghost use Rattle.pp_line.specs.Types.{Event, LineView};
ghost use Rattle.pp_line.specs.ChannelWord.{history_word};
ghost use Rattle.pp_channel.specs.History.{IsLawful, HasTwelveBitWords, HasTwelveBitWord};
ghost use Rattle.pp_line.specs.SharedWords.{place_count, word_place, central_place};
ghost use Rattle.pp_line.specs.LineSteps.{IsLoad, IsExchange, Tells};
ghost use Rattle.pp_line.specs.LineView.{first_view, parent_view, child_view, joined_view, finds, reads, writes, with_unrecorded_load};

use crate::rule::{
    ChannelRule, CheckShares, Exchange, LineView, Load, Opening, Read, Share, Write,
};
use atomic_table::{Seat, Table};
use pp_channel::{CHANNELS, ChannelNo, Event, Memory};
use pp_word::{Word18, Word60};
use std::alloc::Allocator;
use std::sync::Arc;

/// The distance from one channel's word to the next, in words: 128 bytes, so that no two channels
/// share a cache line.
const APART: usize = 16;

/// The number of places before the words of central memory. The first `APART` are not used.
const PLACES: usize = APART * (CHANNELS + 1);

/// The words of the channels and of central memory, which all lines of a family share, and one
/// line's seat at them.
#[derive(Drop)]
pub struct SharedWords<A: Allocator> {
    table: Arc<Table<Event, LineView, Opening<A>, ChannelRule, A>, A>,
    pub seat: Seat<Event, LineView>,
    ghost places: { (arc_value table).shared.table_id.words
        ≡ place_count + length seat.me.0.central },
    ghost seated: { seat.table_id ≡ (arc_value table).shared.table_id },
    ghost no_slots: { seat.me.1 ≡ [] },
    ghost unspent: { 0 < seat.me.0.shares },
}

impl<A: Allocator + Copy> SharedWords<A> {
    /// The words of all channels without history and those of central memory, and the seat of the
    /// first line, with all shares.
    pub fn open(alloc: A, whole: u64, central: &[Word60]) -> Result<SharedWords<A>, Memory>
        requires shares { 0 < whole }
        requires small { (address : ℕ) → slice_index central.now address < 2 ^ 60 }
        ensures { IfOk result (λ words. words.seat.me.0 ≡ first_view whole central.now) }
    {
        let words = opening_words(alloc, central)?;
        let opening = Opening { whole, words };
        let (table, seat) = Table::of_words(alloc, opening.words.as_slice(), &opening)?;
        let table = Arc::new(alloc, table)?;
        Ok(SharedWords { table, seat })
    }

    /// Another seat, with one share of this one's.
    pub fn split(&mut self) -> Result<SharedWords<A>, Memory>
        requires { 1 < self.old.seat.me.0.shares }
        ensures table { self.new.seat.table_id ≡ self.old.seat.table_id }
        ensures parent { IfOk result (λ words.
            self.new.seat.me.0 ≡ parent_view self.old.seat.me.0) }
        ensures child { IfOk result (λ words. words.seat.me.0 ≡ child_view self.old.seat.me.0) }
        ensures child_table { IfOk result (λ words. words.seat.table_id ≡ self.old.seat.table_id) }
        ensures unchanged_after_memory { OnErr result (self.new ≡ self.old) }
    {
        let table = Arc::try_clone(&self.table)?;
        let seat = table.shared.split_seat::<Share>(&mut self.seat);
        Ok(SharedWords { table, seat })
    }

    /// Joins the seat of another line to this one.
    pub fn join(&mut self, other: SharedWords<A>)
        requires { other.seat.table_id ≡ self.old.seat.table_id }
        ensures table { self.new.seat.table_id ≡ self.old.seat.table_id }
        ensures view { self.new.seat.me.0 ≡ joined_view self.old.seat.me.0 other.seat.me.0 }
    {
        let SharedWords { table: _, seat } = other;
        self.table.shared.join_seat::<Share>(&mut self.seat, seat);
    }

    /// The word of a channel.
    pub fn load(&mut self, channel: ChannelNo) -> u64
        ensures table { self.new.seat.table_id ≡ self.old.seat.table_id }
        ensures load { IsLoad channel self.old.seat.me.0 result self.new.seat.me.0 }
    {
        self.table
            .shared
            .load::<Load>(&mut self.seat, place(channel))
    }

    /// Tries once to make an event: the word of the channel becomes `new` if it is `expected`.
    /// Returns the word that it found.
    pub fn exchange(&mut self, channel: ChannelNo, expected: u64, new: u64, event: &Event) -> u64
        requires loaded { (v : LineView) × (self.old.seat.me.0 ≡ finds v channel expected) }
        requires next { (h : List Event) → IsLawful h → HasTwelveBitWords h
            → history_word h ≡ expected
            → IsLawful (h ++ event.now ∷ []) × HasTwelveBitWord event.now
            × (history_word (h ++ event.now ∷ []) ≡ new) }
        ensures table { self.new.seat.table_id ≡ self.old.seat.table_id }
        ensures exchange { IsExchange channel expected event.now self.old.seat.me.0 result
            self.new.seat.me.0 }
    {
        self.table
            .shared
            .compare_exchange_with::<Exchange>(&mut self.seat, place(channel), expected, new, event)
    }

    /// The word of central memory at an address, or nothing at or past the size.
    pub fn read(&mut self, address: Word18) -> Option<Word60>
        ensures table { self.new.seat.table_id ≡ self.old.seat.table_id }
        ensures read { IfSome result (λ word.
            self.new.seat.me.0 ≡ reads self.old.seat.me.0 address word) }
        ensures inside { IfSome result (λ word. address < length self.old.seat.me.0.central) }
        ensures outside { IfNone result (length self.old.seat.me.0.central ≤ address) }
        ensures unchanged_outside { IfNone result (self.new.seat.me.0 ≡ self.old.seat.me.0) }
    {
        let place = central_place(address);
        if place >= self.table.word_count() {
            return None;
        }
        let word = self.table.shared.load::<Read>(&mut self.seat, place);
        Some(Word60::truncated(word))
    }

    /// Writes the word of central memory at an address; at or past the size it returns false, and
    /// writes nothing.
    pub fn write(&mut self, address: Word18, word: Word60) -> bool
        ensures table { self.new.seat.table_id ≡ self.old.seat.table_id }
        ensures inside { IsTrue result ↔ (address < length self.old.seat.me.0.central) }
        ensures written { MatchBool result
            ((number : ℕ) × (self.new.seat.me.0 ≡ writes self.old.seat.me.0 address word number))
            (self.new.seat.me.0 ≡ self.old.seat.me.0) }
    {
        let place = central_place(address);
        if place >= self.table.word_count() {
            return false;
        }
        self.table
            .shared
            .store::<Write>(&mut self.seat, place, word.get());
        true
    }

    /// A load that is counted, after which the line knows no more of the channels than before.
    pub fn check_shares(&mut self, channel: ChannelNo)
        ensures table { self.new.seat.table_id ≡ self.old.seat.table_id }
        ensures view { self.new.seat.me.0 ≡ with_unrecorded_load self.old.seat.me.0 }
        ensures shares_fit { self.old.seat.me.0.shares ≤ self.old.seat.me.0.whole }
        ensures tells { (word : ℕ) × Tells self.old.seat.me.0 channel word }
    {
        self.table
            .shared
            .load::<CheckShares>(&mut self.seat, place(channel));
    }
}

/// The words of channels without history, and then those of central memory.
fn opening_words<A: Allocator + Copy>(alloc: A, central: &[Word60]) -> Result<Vec<u64, A>, Memory>
    ensures { IfOk result (λ words. words.items ≡ replicate place_count 0 ++ central.now) }
{
    let mut words = vec![in alloc; 0; PLACES]?;
    for word in central {
        words.push(word.get())?;
    }
    Ok(words)
}

/// Where a word of central memory lies.
fn central_place(address: Word18) -> usize
    ensures { result ≡ central_place address }
{
    PLACES + address.get() as usize
}

/// Where the word of a channel lies.
fn place(channel: ChannelNo) -> usize
    ensures place { result ≡ word_place channel }
    ensures below { result < place_count }
{
    APART * (channel.index() + 1)
}
