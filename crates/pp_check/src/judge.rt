ghost use Rattle.std.specs.Prelude.{◌≡◌, ◌+◌, ◌<◌, ◌≤◌, ◌^◌, [], Bool, List, Some, IsTrue, OnOk};
ghost use Rattle.pp_numbers.specs.ChannelNo.{names_channel};
ghost use Rattle.pp_deck.specs.DeckText.{fields_of};
ghost use Rattle.pp_check.specs.Judge.{Happens, IsRead, Keeps, KeepsEvents, KeepsSome, tally_of};
ghost use Rattle.pp_check.specs.LawfulTrace.{Fits, event_on};
ghost use Rattle.pp_check.specs.{TraceLine.parsed_line, Verdict.verdict_of};
ghost use Rattle.pp_check.specs.declared.trace_line.TraceLine.{TraceLine};

use crate::channel_tally::ChannelTally;
use crate::trace_line::line_in;
use crate::{TraceFlaw, TraceLine, Verdict};
use pp_channel::{CHANNELS, ChannelNo, Event};
use pp_deck::Fields;

/// What is kept of the lines so far: each channel's state, the last turn, and the numbers of events
/// and of sessions begun. It takes no memory that grows.
#[derive(Clone, Copy)]
pub(crate) struct Judge {
    pub(crate) channels: [ChannelTally; CHANNELS],
    pub(crate) last_turn: Option<u64>,
    pub(crate) events: u64,
    pub(crate) sessions: u64,
}

impl Judge {
    /// No line has been read, and these channels are open, by flags in the order of their places.
    pub(crate) fn new(opened: &[bool; CHANNELS]) -> Judge
        ensures { Keeps opened.now [] result }
    {
        let mut channels = [ChannelTally::NEW; CHANNELS];
        for place in 0..CHANNELS {
            if opened[place] {
                channels[place] = ChannelTally::OPENED;
            }
        }
        Judge {
            channels,
            last_turn: None,
            events: 0,
            sessions: 0,
        }
    }

    /// Reads the next line, and judges it.
    pub(crate) fn read(&mut self, line: &[u8]) -> Result<(), TraceFlaw>
        requires room { self.old.events < 2 ^ 63 }
        requires kept { KeepsSome self.old }
        ensures judged { (opened : List Bool) (lines : List TraceLine) → Keeps opened lines self.old
            → IsRead opened lines (parsed_line (fields_of line.now)) self.new result }
        ensures room { OnOk result (self.new.events ≤ self.old.events + 1) }
    {
        let Some(line) = line_in(&mut Fields::of(line)) else {
            return Err(TraceFlaw::Malformed);
        };
        match line {
            TraceLine::AtTurn(turn, channel, event) => {
                if let Some(last) = self.last_turn {
                    if turn <= last {
                        return Err(TraceFlaw::TurnNotRising(turn, last));
                    }
                }
                self.last_turn = Some(turn);
                self.happen(channel, event)
            }
            TraceLine::Numbered(number, channel, event) => {
                let tally = self.tally_of(channel);
                let next = tally.events + u64::from(tally.is_opened);
                if number != next {
                    return Err(TraceFlaw::WrongNumber(channel, number, next));
                }
                self.happen(channel, event)
            }
            TraceLine::Standing(channel, shown) => {
                let state = self.tally_of(channel).state;
                if shown != state {
                    return Err(TraceFlaw::WrongState(channel, shown, state));
                }
                Ok(())
            }
            TraceLine::Other => Ok(()),
        }
    }

    fn tally_of(&self, channel: ChannelNo) -> ChannelTally
        ensures kept { result ≡ tally_of self.now.channels channel }
        ensures names { IsTrue (names_channel channel) }
    {
        self.channels[channel.index()]
    }

    fn happen(&mut self, channel: ChannelNo, event: Event) -> Result<(), TraceFlaw>
        requires room { self.old.events < 2 ^ 63 }
        requires kept { KeepsSome self.old }
        ensures happens { (opened : List Bool) (lines : List TraceLine) (line : TraceLine)
            → KeepsEvents opened lines self.old.channels self.old.events self.old.sessions
            → Fits opened lines line
            → event_on channel line ≡ Some event → Happens opened lines line self.new result }
        ensures room { OnOk result (self.new.events ≤ self.old.events + 1) }
        ensures turn { self.new.last_turn ≡ self.old.last_turn }
    {
        let tally = self.tally_of(channel);
        let Some(state) = tally.state.after(&event) else {
            return Err(TraceFlaw::UnlawfulEvent(channel, event, tally.state));
        };
        self.channels[channel.index()] = ChannelTally {
            state,
            events: tally.events + 1,
            is_opened: tally.is_opened,
        };
        self.events += 1;
        if matches!(event, Event::Activate) {
            self.sessions += 1;
        }
        Ok(())
    }

    pub(crate) fn verdict(&self) -> Verdict
        requires room { self.now.events ≤ 2 ^ 63 }
        requires kept { KeepsSome self.now }
        ensures { (opened : List Bool) (lines : List TraceLine) → Keeps opened lines self.now
            → result ≡ verdict_of opened lines }
    {
        let mut channels = 0;
        let mut sessions = self.sessions;
        for tally in &self.channels {
            if tally.events > 0 {
                channels += 1;
                if tally.is_opened {
                    sessions += 1;
                }
            }
        }
        Verdict {
            events: self.events,
            channels,
            sessions,
        }
    }
}
