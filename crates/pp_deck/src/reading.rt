ghost use Rattle.std.specs.Prelude.{◌≡◌, ◌≤◌, ◌∷◌, ◌^◌, length, is_some, false, Err, IfOk, IsErrOf, ◌↔◌, if◌then◌else◌};
ghost use Rattle.pp_machine.specs.{Central.IsCentralSize, DeadStart.IsBeforeFirstTurn};
ghost use Rattle.pp_deck.specs.DeckLine.{section_line, start_line, words_line, central_line, central_size, central_words_line, keyword_of, line_after};
ghost use Rattle.pp_deck.specs.DeckMeaning.{unnamed_in, with_dead_start};
ghost use Rattle.pp_deck.specs.Reading.{Progress, before_lines, after_line, deck_so_far, on_read, Leaves};

use crate::deck_line::{end_line, next_number, set_central_words, set_words, start_a};
use crate::flaw::Flaw;
use crate::keyword::Keyword;
use crate::octal_number::word12;
use crate::{Deck, Fields};
use pp_channel::Memory;
use pp_machine::{CentralFault, Machine, PROCESSORS, PpNo, Profile};
use pp_word::{Word12, Word18};
use std::alloc::Allocator;
use std::marker::Model;

/// A deck, as far as it has been read. Contracts see it as its `Progress`.
#[derive(Drop)]
pub(crate) struct Reading<A: Allocator> {
    machine: Machine<A>,
    named: [bool; PROCESSORS],
    current: Option<PpNo>,
    asks_dead_start: bool,
}

impl<A: Allocator> Model for Reading<A> {
    ghost Value = { Progress };

    ghost view = { λ r. record {
      machine = r.machine;
      named = r.named;
      current = r.current;
      asks_dead_start = r.asks_dead_start;
    } };
}

impl<A: Allocator> Reading<A> {
    /// Nothing is read yet, for a machine of this profile whose central memory has this size.
    #[tactic(auto, unfolding(crate::specs::Reading::before_lines))]
    pub(crate) fn new(alloc: A, profile: Profile, size: u32) -> Result<Self, CentralFault>
    where
        A: Copy,
        ensures ok { IfOk result (λ reading. reading ≡ before_lines profile size) }
        ensures profile { IfOk result (λ reading. reading.machine.profile ≡ profile) }
        ensures bad_size { IsErrOf result CentralFault.BadSize ↔ ¬ IsCentralSize size }
    {
        Ok(Reading {
            machine: Machine::new(alloc, profile, size)?,
            named: [false; PROCESSORS],
            current: None,
            asks_dead_start: false,
        })
    }

    /// The deck, once all lines are read: at dead start the processors that it does not name wait.
    pub(crate) fn into_deck(mut self) -> Result<Deck<A>, Memory>
    where
        A: Clone,
        requires { IsBeforeFirstTurn self.machine }
        ensures { IfOk result (λ deck. record { machine = deck.machine; named = deck.named }
            ≡ with_dead_start self.asks_dead_start (deck_so_far self)) }
    {
        if self.asks_dead_start {
            let waiting = unnamed(self.machine.profile(), &self.named);
            self.machine.dead_start(&waiting)?;
        }
        Ok(Deck {
            machine: self.machine,
            named: self.named,
        })
    }

    /// Reads a line with this first field and these after it. `is_after_fields` says whether a
    /// line with fields stands before it; if none does and this is a `CENTRAL` line, its size is
    /// the one stated.
    #[tactic(auto, unfolding(crate::specs::DeckLine::line_after, // the line after it
    crate::specs::DeckLine::central_words_line, crate::specs::Reading::after_line))]
    pub(crate) fn read_line(
        &mut self,
        is_after_fields: bool,
        stated: &Result<u32, Flaw>,
        first: &[u8],
        fields: &mut Fields,
    ) -> Result<(), Flaw>
        requires size { length self.old.machine.central ≤ 2 ^ 17 }
        requires stated { is_after_fields ≡ false → keyword_of first.now ≡ Keyword.Central
            → central_line fields.old ≡ on_read central_size stated.now }
        ensures { Leaves self.new result (on_read (after_line self.old)
            (line_after self.old.machine.profile
            (length self.old.machine.central) is_after_fields (is_some self.old.current)
            (first.now ∷ fields.old))) }
    {
        match Keyword::of(first) {
            Keyword::Central if is_after_fields => Err(Flaw::UnknownLine),
            Keyword::Central => stated.and(Ok(())),
            Keyword::CentralWords => {
                let address = Word18::truncated(next_number(fields, 6)? as u32);
                set_central_words(&mut self.machine, address, fields)
            }
            Keyword::Processor => self.read_section(fields),
            Keyword::Start => self.read_start(fields),
            Keyword::DeadStart => {
                self.asks_dead_start = true;
                end_line(fields)
            }
            Keyword::Words => self.read_words(first, fields),
            Keyword::Unknown => Err(Flaw::UnknownLine),
        }
    }

    /// `PP n`, after its keyword.
    #[tactic(auto, unfolding(crate::specs::DeckLine::section_line, // a section
    crate::specs::Reading::after_line))]
    fn read_section(&mut self, fields: &mut Fields) -> Result<(), Flaw>
        ensures { Leaves self.new result (on_read (after_line self.old)
            (section_line self.old.machine.profile fields.old)) }
    {
        let profile = self.machine.profile();
        let n = next_number(fields, 2)?;
        let processor = profile.processor(n as u8).ok_or(Flaw::BadProcessor)?;
        self.named[processor.index()] = true;
        self.current = Some(processor);
        end_line(fields)
    }

    /// `START p` or `START p a`, after its keyword.
    #[tactic(auto, unfolding(crate::specs::DeckLine::start_line, // a start
    crate::specs::Reading::after_line))]
    fn read_start(&mut self, fields: &mut Fields) -> Result<(), Flaw>
        ensures { Leaves self.new result (on_read (after_line self.old)
            (if is_some self.old.current then start_line fields.old else Err Flaw.NoProcessor)) }
    {
        let processor = self.current.ok_or(Flaw::NoProcessor)?;
        let p = Word12::truncated(next_number(fields, 4)? as u32);
        let a = start_a(fields)?;
        self.machine.pp_mut(processor).start(p, a);
        Ok(())
    }

    /// `x w w ..`: its first field, and the words after it.
    #[tactic(auto, unfolding(crate::specs::DeckLine::words_line, // a line of words
    crate::specs::Reading::after_line))]
    fn read_words(&mut self, first: &[u8], fields: &mut Fields) -> Result<(), Flaw>
        ensures { Leaves self.new result (on_read (after_line self.old)
            (if is_some self.old.current then words_line first.now fields.old
            else Err Flaw.NoProcessor)) }
    {
        let processor = self.current.ok_or(Flaw::NoProcessor)?;
        let place = word12(first)?;
        set_words(self.machine.pp_mut(processor), place, fields)
    }
}

/// The processors of a profile that are not named.
fn unnamed(profile: Profile, named: &[bool; PROCESSORS]) -> [bool; PROCESSORS]
    ensures { result ≡ unnamed_in profile named.now }
{
    let mut unnamed = [false; PROCESSORS];
    for place in 0..profile.processors() {
        unnamed[place] = !named[place];
    }
    unnamed
}
