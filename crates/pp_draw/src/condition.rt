ghost use Rattle.std.specs.Prelude.{◌≡◌, ◌≤◌, length};
ghost use Rattle.pp_text.specs.Piece.{piece_length};
ghost use Rattle.pp_draw.specs.Condition.{face_of, continues};

use pp_channel::{ChannelNo, Event};
use pp_text::{channel_name, octal4};

/// How a step finds its processor.
#[derive(Clone, Copy)]
pub enum Condition {
    /// It goes on.
    Running,
    /// It goes on in a block transfer.
    InBlock,
    /// This channel, which is not ready, holds it.
    HeldBy(ChannelNo),
    /// It has stopped.
    Stopped,
    /// It has ended in a fault.
    Faulted,
}

/// What a lane shows: a channel after an event, or a processor as a step finds it.
#[derive(Clone, Copy)]
pub enum Look {
    Channel(Event),
    Processor(Condition),
}

impl Look {
    /// Whether the next look continues a phase. Of a channel none does: each event begins another.
    pub(crate) fn continues(&self, next: &Look) -> bool
        ensures { result ≡ continues self.now next.now }
    {
        match (self, next) {
            (Look::Processor(Condition::HeldBy(c)), Look::Processor(Condition::HeldBy(other))) =>
                other.get() == c.get(),
            (Look::Processor(Condition::Running), Look::Processor(Condition::Running))
            | (Look::Processor(Condition::InBlock), Look::Processor(Condition::InBlock))
            | (Look::Processor(Condition::Stopped), Look::Processor(Condition::Stopped))
            | (Look::Processor(Condition::Faulted), Look::Processor(Condition::Faulted)) => true,
            _ => false,
        }
    }

    /// How it is shown.
    pub(crate) fn face(&self) -> Face
        ensures class { result.class ≡ (face_of self.now).class }
        ensures words { result.words.now ≡ (face_of self.now).words }
        ensures fits { length result.words.now ≤ piece_length }
        ensures label { result.label ≡ (face_of self.now).label }
    {
        match self {
            Look::Channel(Event::Disconnect) => in_words(b"i", b"inactive", None),
            Look::Channel(Event::Activate | Event::Take(_)) => in_words(b"a", b"active", None),
            Look::Channel(Event::Put(word)) => {
                in_words(b"f", b"full ", Some(octal4(word.get())))
            }
            Look::Channel(Event::Function(code)) => {
                in_words(b"c", b"function ", Some(octal4(code.get())))
            }
            Look::Processor(Condition::Running) => in_words(b"r", b"running", None),
            Look::Processor(Condition::InBlock) => in_words(b"b", b"in a block", None),
            Look::Processor(Condition::HeldBy(c)) => in_words(
                b"h",
                b"held by ",
                Some(channel_name(*c)),
            ),
            Look::Processor(Condition::Stopped) => in_words(b"s", b"stopped", None),
            Look::Processor(Condition::Faulted) => in_words(b"x", b"at fault", None),
        }
    }
}

/// How a look is shown: the letter of its class, which has its colour in the style sheet, and in
/// words, with a label after them that also stands above the band.
#[derive(Clone, Copy)]
pub(crate) struct Face {
    pub(crate) class: [u8; 1],
    pub(crate) words: &'static [u8],
    pub(crate) label: Option<[u8; 4]>,
}

fn in_words(class: &[u8; 1], words: &'static [u8], label: Option<[u8; 4]>) -> Face
    ensures class { result.class ≡ class.now }
    ensures words { result.words.now ≡ words.now }
    ensures label { result.label ≡ label }
{
    Face {
        class: *class,
        words,
        label,
    }
}

/// How a channel or a processor stands from a turn on (decimal), until its next phase.
#[derive(Clone, Copy)]
pub struct Phase {
    pub since: u64,
    pub look: Look,
}
